// Writing the rows of a machine: each is judged, held against the earlier rows of its machine, and stored behind them. No entry point: `writing`
// calls it.
#![tactic(auto)]

ghost use Rattle.std.specs.Prelude.{◌≡◌, [], ℕ, ◌+◌, ◌*◌, ◌≤◌, length};
ghost use Rattle.livelock.specs.Plants.{Plant};
ghost use Rattle.plant.specs.Limits.{most_row_bytes, rows_in};
ghost use Rattle.plant_lists.specs.Lists.{listed_rows};
ghost use Rattle.written_rows.specs.Steps.{Room, ListKeyRoom, Near, RowsStored};

use plant::{Fault, Refusal};
use row_bytes::PlantFile;
use row_numbers::judged_row;
use twins::keep_row;

// The `n` rows of a machine whose first number is at `start`, stored behind what the file has; hands back the index after them. Their keys are kept in
// `keys`; their count and the states that they leave are beside it, since in one struct with an array of keys they stayed in memory, and a copy of `write`
// took 1.2 to 1.4 times as long.
pub fn write_rows(
    numbers: &[u16],
    start: usize,
    n: usize,
    states: u8,
    types: u8,
    file: &mut PlantFile,
    keys: &mut [u32],
) -> Result<usize, Fault>
    requires { (states ≤ 64) × (types ≤ 64) × Room numbers.now file.old.bytes.now start file.old.end (most_row_bytes * n) × (n ≤ 255) × ListKeyRoom numbers.now keys.old }
    ensures same_list { file.new.bytes.ghost_name ≡ file.old.bytes.ghost_name }
    ensures long { length file.new.bytes.now ≡ length file.old.bytes.now }
    ensures by_index { (m : ℕ) (p : Plant) → p.types ≡ types → rows_in m p.rows ≡ [] → RowsStored n m p file.old.bytes.now file.new.bytes.now file.old.end file.new.end (listed_rows n m states numbers.now start p) result }
    ensures near { Near numbers.now (file.old.end + most_row_bytes * n) file.new.end result }
{
    let mut at = start;
    let mut implied = 0;
    let mut left = 0;
    for i in 0..n {
        let row = judged_row(numbers, at, states, types)?;
        let Some(kept) = keep_row(keys, i, left, row.value) else {
            return Err(Fault {
                refusal: Refusal::TwinRow,
                place: at,
            });
        };
        left = kept;
        file.put_row(&row.value, implied);
        implied = u16::from(row.value.left);
        at = row.next;
    }
    Ok(at)
}
