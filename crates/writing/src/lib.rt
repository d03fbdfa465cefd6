// Writing plant files: a list of numbers goes in, and the shortest file of the plant that it says comes out, or a refusal. The file is made in a
// buffer of our own and copied at the end, so that nothing is written with a refusal. Of the rows of a machine their keys are kept, so that a twin is
// found.
#![tactic(auto)]

ghost use Rattle.std.specs.Prelude.{◌≡◌, ◌+◌, ◌-◌, ◌*◌, ◌≤◌, min, length, IfOk};
ghost use Rattle.livelock.specs.Plants.{Plant, row_count};
ghost use Rattle.plant.specs.Checks.{check_found};
ghost use Rattle.plant.specs.Reading.{no_machines};
ghost use Rattle.plant.specs.Limits.{most_row_bytes, longest_file, Numbered};
ghost use Rattle.plant_lists.specs.Lists.{listed_machine, listed_machines, list_end, listed_plant};
ghost use Rattle.writing.specs.Answers.{answer_of};
ghost use Rattle.writing.specs.Writing.{answer_for, buffer_for, WritesShortest};
ghost use Rattle.writing.specs.Inner.Steps.{MachineStored, MachineNear, MachinesStored, PlantStored};
ghost use Rattle.written_rows.specs.Steps.{Room, ListKeyRoom, Near};

use list_numbers::{number_in, rows_number};
use plant::{Fault, Refusal};
use row_bytes::PlantFile;
use twins::{FEW_ROWS, MOST_ROWS};
use written_rows::write_rows;

// The bytes of the longest file.
const LONGEST: usize = 5154;

// A list has a number for each byte of its file at least, so one of at most so many numbers needs no long buffer, which has to be cleared.
const SHORT: usize = 128;

// Where the numbers of the machines so far end, and their count of rows.
#[derive(Clone, Copy)]
struct Walked {
    at: usize,
    rows: usize,
}

// The machine whose first number is where those before it end, stored behind them. It reads numbers and not bytes, so it is a function beside the one that
// reads a machine of a file.
fn write_machine(
    numbers: &[u16],
    before: Walked,
    types: u8,
    file: &mut PlantFile,
    keys: &mut [u32],
) -> Result<Walked, Fault>
    requires { (types ≤ 64) × (before.rows ≤ 1024) × Room numbers.now file.old.bytes.now before.at file.old.end (2 + most_row_bytes * (1024 - before.rows)) × ListKeyRoom numbers.now keys.old }
    ensures same_list { file.new.bytes.ghost_name ≡ file.old.bytes.ghost_name }
    ensures long { length file.new.bytes.now ≡ length file.old.bytes.now }
    ensures machine_stored { (p : Plant) → p.types ≡ types → row_count p ≡ before.rows → Numbered p → MachineStored p file.old.bytes.now file.new.bytes.now file.old.end file.new.end (listed_machine numbers.now before.at p) result }
    ensures near { MachineNear numbers.now before.rows file.old.end file.new.end result }
{
    let states = number_in(numbers, before.at, 1, 65)?;
    let count = rows_number(numbers, states.next, before.rows)?;
    file.put(states.value, true);
    file.put(count.value, true);
    let n = usize::from(count.value);
    let at = write_rows(numbers, count.next, n, states.value, types, file, keys)?;
    Ok(Walked {
        at,
        rows: before.rows + n,
    })
}

// The `n` machines whose first number is at `start`; hands back the index after them.
fn write_machines(
    numbers: &[u16],
    start: usize,
    n: usize,
    types: u8,
    file: &mut PlantFile,
    keys: &mut [u32],
) -> Result<usize, Fault>
    requires { (types ≤ 64) × Room numbers.now file.old.bytes.now start file.old.end (2 * n + most_row_bytes * 1024) × ListKeyRoom numbers.now keys.old }
    ensures same_list { file.new.bytes.ghost_name ≡ file.old.bytes.ghost_name }
    ensures long { length file.new.bytes.now ≡ length file.old.bytes.now }
    ensures machines_stored { MachinesStored n types file.old.bytes.now file.new.bytes.now file.old.end file.new.end (listed_machines n numbers.now start (no_machines types)) result }
    ensures near { Near numbers.now (file.old.end + (2 * n + most_row_bytes * 1024)) file.new.end result }
{
    let mut walked = Walked { at: start, rows: 0 };
    for _machine in 0..n {
        walked = write_machine(numbers, walked, types, file, keys)?;
    }
    Ok(walked.at)
}

// After the last row the list ends.
fn list_end(numbers: &[u16], at: usize) -> Result<(), Fault>
    ensures { (p : Plant) → check_found result p at ≡ list_end numbers.now p at }
{
    if at < numbers.len() {
        return Err(Fault {
            refusal: Refusal::ListLength,
            place: at,
        });
    }
    Ok(())
}

// The plant that a list says, stored from the front of a buffer on; hands back the length of its file. The file is made here and not lent, so that where it
// ends stays in a register, and is not read and stored again for each byte.
fn write_plant(numbers: &[u16], bytes: &mut [u8], keys: &mut [u32]) -> Result<usize, Fault>
    requires { (min longest_file (length numbers.now) ≤ length bytes.old) × ListKeyRoom numbers.now keys.old }
    ensures plant_stored { PlantStored bytes.old bytes.new (listed_plant numbers.now) result }
    ensures near { IfOk result (λ end. (end ≤ length numbers.now) × (end ≤ longest_file)) }
{
    let mut file = PlantFile { bytes, end: 0 };
    let machines = number_in(numbers, 0, 1, 17)?;
    let types = number_in(numbers, machines.next, 0, 65)?;
    file.put(machines.value, true);
    file.put(types.value, true);
    let n = usize::from(machines.value);
    let end = write_machines(numbers, types.next, n, types.value, &mut file, keys)?;
    list_end(numbers, end)?;
    Ok(file.end)
}

// Writes by way of a buffer of so many bytes and a list of so many keys, which are enough.
fn write_in<const BYTES: usize, const ROWS: usize>(
    numbers: &[u16],
    out: &mut [u8],
) -> Result<usize, Fault>
    requires file_fits { (min longest_file (length numbers.now) ≤ BYTES) × (BYTES ≤ 5154) }
    requires keys_fit { (min (6 * 255) (length numbers.now) ≤ 6 * ROWS) × (ROWS ≤ 255) }
    ensures result_value { answer_of result ≡ answer_for (listed_plant numbers.now) (length out.old) }
    ensures out_after { out.new ≡ buffer_for (listed_plant numbers.now) out.old }
    ensures writes_shortest { WritesShortest numbers.now out.new (answer_of result) }
{
    let mut file = [0; BYTES];
    let length = write_plant(numbers, &mut file, &mut [0; ROWS])?;
    if out.len() < length {
        return Err(Fault {
            refusal: Refusal::OutputRoom,
            place: 0,
        });
    }
    out[..length].copy_from_slice(&file[..length]);
    Ok(length)
}

// Writes the shortest file of the plant that a list says, and hands back its length.
pub fn write(numbers: &[u16], out: &mut [u8]) -> Result<usize, Fault>
    ensures result_value { answer_of result ≡ answer_for (listed_plant numbers.now) (length out.old) }
    ensures out_after { out.new ≡ buffer_for (listed_plant numbers.now) out.old }
    ensures writes_shortest { WritesShortest numbers.now out.new (answer_of result) }
{
    if numbers.len() <= SHORT {
        return write_in::<SHORT, FEW_ROWS>(numbers, out);
    }
    write_in::<LONGEST, MOST_ROWS>(numbers, out)
}
