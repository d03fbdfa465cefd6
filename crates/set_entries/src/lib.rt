// The entries of a cycle set: the numbers of one are read, and then it is judged whether its rows are a quiet simple cycle of its machine.
// No entry point: `cycle_sets` calls it.
#![tactic(auto)]

ghost use Rattle.std.specs.Prelude.{◌≡◌, false, ◌^◌, ◌≤◌, ◌<◌, length, get_or, replicate, IfOk};
ghost use Rattle.tables.specs.Tables.{row_in, row_of, RoomFor};
ghost use Rattle.set_entries.specs.Entries.{entry_of, JudgedEntry};
ghost use Rattle.set_entries.specs.Inner.Steps.{goes_on, leads, JudgedEnd};

mod entries;

pub use entries::Entry;
use plant::{Fault, Field, Refusal};
use tables::TableRow;

// Whether a row is a quiet row of machine m that leaves state `at`, which no row before it has left.
fn goes_on(row: TableRow, m: u32, at: u8, seen: &[bool; 256]) -> bool
    ensures { result ≡ goes_on (row_of row) m at seen.now }
{
    u32::from(row.machine) == m
        && !row.fields.progress
        && row.fields.left == at
        && !seen[usize::from(at)]
}

// Whether the rows of an entry are a quiet simple cycle of its machine.
fn is_quiet_cycle(entry: Entry) -> bool
    requires { 0 < length entry.rows.now }
    ensures { let e = entry.entry in let start = (row_in e.table.now (get_or e.rows.now 0 0)).left in result ≡ leads e.table.now e.machine start start (replicate 256 false) e.rows.now }
{
    let start = tables::row_in(entry.table, entry.rows[0] as usize)
        .fields
        .left;
    let mut state = start;
    let mut seen = [false; 256];
    for k in entry.rows {
        let row = tables::row_in(entry.table, *k as usize);
        if !goes_on(row, entry.machine, state, &seen) {
            return false;
        }
        seen[usize::from(state)] = true;
        state = row.fields.entered;
    }
    state == start
}

// What is judged where the entry that begins at `first` ends: whether its rows are a quiet simple cycle of its machine.
fn entry_ends(entry: Entry, first: usize) -> Result<(), Fault>
    requires { 0 < length entry.rows.now }
    ensures { JudgedEnd entry.entry.table.now (entry_of entry.entry) first result }
{
    if is_quiet_cycle(entry) {
        return Ok(());
    }
    Err(Fault {
        refusal: Refusal::NotQuietCycle,
        place: first,
    })
}

// The entry that begins at `first`: its numbers, one by one, and what is judged where it ends.
pub fn judge_entry<'a>(
    table: &'a [u8],
    set: &'a [u32],
    first: usize,
    machines: u32,
    rows: u32,
) -> Result<Field<Entry<'a>>, Fault>
    requires { (first ≤ 2 ^ 32) × RoomFor rows table.now }
    ensures entry { JudgedEntry table.now rows machines set.now first result }
    ensures same_table { IfOk result (λ read. read.value.table.now ≡ table.now) }
{
    let head = set_numbers::first_numbers(set, first, machines)?;
    let end = head.next + head.value.rows as usize;
    set_numbers::rows_in(set, head.next, end, rows)?;
    let entry = Entry {
        table,
        machine: head.value.machine,
        repeats: head.value.repeats,
        rows: &set[head.next..end],
    };
    entry_ends(entry, first)?;
    Ok(Field {
        value: entry,
        next: end,
    })
}
