// Confirming cycle sets: the entries are judged one by one, and their effects are added.
#![tactic(auto)]

ghost use Rattle.std.specs.Prelude.{◌≡◌, ◌↔◌, ◌*◌, ◌≤◌, min, length, get_or, pos};
ghost use Rattle.plant.specs.Reading.{read_plant};
ghost use Rattle.decoding.specs.Tables.{plant_of};
ghost use Rattle.set_entries.specs.Sets.{read_set};
ghost use Rattle.cycle_sets.specs.Answers.{answer_of, confirmed};
ghost use Rattle.cycle_sets.specs.Confirming.{lowest_negative, owed, ReadsBalanced};
ghost use Rattle.cycle_sets.specs.Inner.Judging.{JudgedAs};

use decoding::Decoded;
use plant::Fault;

// The answer of confirming: confirmed, or the lowest type with a negative sum and that sum.
#[derive(Clone, Copy, Debug, PartialEq, Eq)]
pub enum Confirmation {
    Confirmed,
    Negative { message: usize, sum: i64 },
}

// The lowest type with a negative sum, and that sum.
fn lowest_negative(sums: &[i64]) -> Confirmation
    ensures { answer_of (Ok result) ≡ lowest_negative (λ t. get_or sums.now t (pos 0)) 0 (length sums.now) }
{
    match sums.iter().position(|sum| *sum < 0) {
        Some(message) => Confirmation::Negative {
            message,
            sum: sums[message],
        },
        None => Confirmation::Confirmed,
    }
}

// Judges the entries one by one and adds up their effects, a sum for each type.
fn judge_set(decoded: Decoded, set: &[u32]) -> Result<[i64; 64], Fault>
    ensures { let plant = plant_of decoded.entry.shape decoded.entry.table.now in JudgedAs plant result (read_set plant set.now) }
{
    let machines = decoded.shape.machines as u32;
    let rows = decoded.shape.rows as u32;
    let mut sums = [0; 64];
    let mut at = 0;
    let mut before = 0;
    'entries: loop {
        if let Err(fault) = set_numbers::entry_begins(set, at, before) {
            break 'entries Err(fault);
        }
        match set_entries::judge_entry(decoded.table, set, at, machines, rows) {
            Err(fault) => break 'entries Err(fault),
            Ok(entry) => {
                set_sums::add_entry(entry.value, &mut sums);
                at = entry.next;
            }
        }
        if at >= set.len() {
            break 'entries Ok(sums);
        }
        before += 1;
    }
}

// Reads a file into a table of so many bytes, and confirms the set.
fn confirm_in<const BYTES: usize>(file: &[u8], set: &[u32]) -> Result<Confirmation, Fault>
    requires { (8 * min 1024 (length file.now) ≤ BYTES) × (BYTES ≤ 8192) }
    ensures { answer_of result ≡ owed (read_plant file.now) set.now }
{
    let mut table = [0; BYTES];
    let shape = decoding::decode(file, &mut table)?;
    let decoded = Decoded {
        table: &table,
        shape,
    };
    let sums = judge_set(decoded, set)?;
    Ok(lowest_negative(&sums[..usize::from(shape.types)]))
}

// Whether a set is balanced in the plant of a file. A short file needs a short table.
pub fn confirm(file: &[u8], set: &[u32]) -> Result<Confirmation, Fault>
    ensures result_value { answer_of result ≡ owed (read_plant file.now) set.now }
    ensures variant { (answer_of result ≡ confirmed) ↔ ReadsBalanced file.now set.now }
{
    if file.len() <= tables::SHORT_FILE {
        return confirm_in::<{ tables::SHORT }>(file, set);
    }
    confirm_in::<{ tables::LONGEST }>(file, set)
}
