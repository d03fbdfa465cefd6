// Listing the simple cycles of a machine.
#![tactic(auto)]

ghost use Rattle.std.specs.Prelude.{◌≡◌, ◌*◌, ◌≤◌, min, length};
ghost use Rattle.machine_graphs.specs.Graphs.{Listable};
ghost use Rattle.listing.specs.Answers.{answer_of};
ghost use Rattle.listing.specs.Listing.{judged, answered, filled, Means};
ghost use Rattle.listing.specs.Inner.Machines.{Answers, AnswersRows, AnswersChecked};

use decoding::Decoded;
use plant::{Fault, Refusal};

// The list is shorter than the entries needed.
const NO_ROOM: Fault = Fault {
    refusal: Refusal::ListingRoom,
    place: 0,
};

// Lists the cycles of the rows from `first` up to, and not including, `last`: counts their entries first, then stores them if the list has room.
fn list_between(table: &[u8], first: usize, last: usize, out: &mut [u16]) -> Result<usize, Fault>
    requires { Listable table.now first last }
    ensures { AnswersRows table.now first last out.old out.new result }
{
    let mut graph = machine_graphs::without_rows(last);
    machine_graphs::add_rows(table, first, last, &mut graph);
    let room = out.len();
    let needed = cycle_counts::count_rows(&graph, first, last, room);
    if needed > room {
        return Err(NO_ROOM);
    }
    cycle_paths::list_rows(&graph, first, last, out).ok_or(NO_ROOM)
}

// Checks 12 and 13, and lists.
fn list_checked(plant: &Decoded, machine: u32, out: &mut [u16]) -> Result<usize, Fault>
    ensures { AnswersChecked plant.now.shape plant.now.table.now machine out.old out.new result }
{
    let m = machine as usize;
    if m >= plant.shape.machines {
        return Err(Fault {
            refusal: Refusal::NoMachine,
            place: 0,
        });
    }
    let rows = plant.rows_of(m);
    if plant.states_of(m) > 24 || rows.end - rows.start > 48 {
        return Err(Fault {
            refusal: Refusal::MachineSize,
            place: 0,
        });
    }
    list_between(plant.table, rows.start, rows.end, out)
}

// Reads a file into a table of so many bytes, and lists.
fn list_in<const BYTES: usize>(file: &[u8], machine: u32, out: &mut [u16]) -> Result<usize, Fault>
    requires { (8 * min 1024 (length file.now) ≤ BYTES) × (BYTES ≤ 8192) }
    ensures { Answers (judged file.now machine (length out.old)) out.old out.new result }
{
    let mut table = [0; BYTES];
    let shape = decoding::decode(file, &mut table)?;
    let table = &table;
    list_checked(&Decoded { table, shape }, machine, out)
}

// Lists every simple cycle of a machine of the plant of a file. A short file needs a short table.
pub fn list(file: &[u8], machine: u32, out: &mut [u16]) -> Result<usize, Fault>
    ensures result_value { answer_of result ≡ answered (judged file.now machine (length out.old)) }
    ensures out_after { out.new ≡ filled (judged file.now machine (length out.old)) out.old }
    ensures means { Means file.now machine (answer_of result) out.new }
{
    if file.len() <= tables::SHORT_FILE {
        return list_in::<{ tables::SHORT }>(file, machine, out);
    }
    list_in::<{ tables::LONGEST }>(file, machine, out)
}
