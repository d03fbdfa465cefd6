// Decoding plant files: one reader for the calls that store the rows, in a table, and for the call that only counts them. Where the rows go is a type's to
// say; of the rows of a machine their keys are kept, so that a twin is found. No entry point: `reading`, `weighing`, `listing`, `cycle_sets` and `watchers`
// call it.
#![tactic(auto)]

ghost use Rattle.std.specs.Prelude.{◌≡◌, [], ◌+◌, ◌≤◌, ◌<◌, min, length, IfOk};
ghost use Rattle.plant.specs.Reading.{read_plant};
ghost use Rattle.tables.specs.Tables.{RoomFor};
ghost use Rattle.decoding.specs.Tables.{decoded_found, Ready};
ghost use Rattle.decoding.specs.Reads.{PlantRead};
ghost use Rattle.decoding.specs.Inner.Steps.{RowsRead, MachineRead, MachinesRead};

use plant::{Fault, Field};
use twins::{FEW_ROWS, Keys, MOST_ROWS};

mod decoded;
mod row_stores;

pub use decoded::Decoded;
pub use row_stores::{RowStore, TableStore};

// What a table of rows lacks for a plant. Machine m has the rows from first[m] up to, and not including, first[m + 1]. Entries past the counts are unused.
#[derive(Clone, Copy)]
pub struct Shape {
    pub types: u8,
    pub machines: usize,
    pub rows: usize,
    pub states: [u8; 16],
    pub first: [u16; 17],
}

// The machine of which the rows are read: its number, and its counts of states and of rows.
#[derive(Clone, Copy)]
struct Head {
    machine: u8,
    states: u8,
    rows: usize,
}

// A machine that was read: its count of states, and the count of rows up to its last.
#[derive(Clone, Copy)]
struct Machine {
    states: u8,
    rows: usize,
}

// The rows of a machine, from the part of the file that begins after its two bytes, kept behind the `used` rows so far; their keys are kept as well, so
// that a twin is found. As a part of its caller, where it stands once for each length of the list of keys, reading took a third longer on files of many rows.
#[inline(never)]
fn read_rows<S: RowStore, const N: usize>(
    s: &[u8],
    head: Head,
    types: u8,
    used: usize,
    store: &mut S,
    keys: &mut Keys<N>,
) -> Result<usize, Fault>
    requires room_for { (min 1024 (used + length s.now) ≤ S.room store.old) × (used + head.rows ≤ 1024) × (types ≤ 64) }
    requires room_for_keys { (head.rows ≤ 255) × (min 255 (length s.now) ≤ N) }
    ensures rows { RowsRead head.rows head.machine head.states types used s.now (S.Holds store.old) (S.Holds store.new) result }
    ensures same_room { S.room store.new ≡ S.room store.old }
    ensures same_lists { S.lent store.new ≡ S.lent store.old }
{
    keys.clear();
    let mut at = 0;
    let mut implied = 0;
    for i in 0..head.rows {
        let row = plant_rows::row_at(s, at, head.states, types, implied)?;
        let fields = row.value;
        keys.keep(fields, at)?;
        store.store_row(used + i, head.machine, fields);
        implied = fields.left;
        at = row.next;
    }
    Ok(at)
}

// The same, without a call for a machine that has no rows: with one for each, a file of such machines took twice as long.
fn read_any_rows<S: RowStore, const N: usize>(
    s: &[u8],
    head: Head,
    types: u8,
    used: usize,
    store: &mut S,
    keys: &mut Keys<N>,
) -> Result<usize, Fault>
    requires room_for { (min 1024 (used + length s.now) ≤ S.room store.old) × (used + head.rows ≤ 1024) × (types ≤ 64) }
    requires room_for_keys { (head.rows ≤ 255) × (min 255 (length s.now) ≤ N) }
    ensures rows { RowsRead head.rows head.machine head.states types used s.now (S.Holds store.old) (S.Holds store.new) result }
    ensures same_room { S.room store.new ≡ S.room store.old }
    ensures same_lists { S.lent store.new ≡ S.lent store.old }
{
    if head.rows == 0 {
        return Ok(0);
    }
    read_rows(s, head, types, used, store, keys)
}

// The machine at `at`, which is machine `m`, after the `used` rows so far: its two bytes, and its rows.
fn read_machine<S: RowStore, const N: usize>(
    file: &[u8],
    at: usize,
    m: usize,
    types: u8,
    used: usize,
    store: &mut S,
    keys: &mut Keys<N>,
) -> Result<Field<Machine>, Fault>
    requires room_for { (min 1024 (length file.now) ≤ S.room store.old) × (used ≤ 1024) × (used ≤ at) × (types ≤ 64) × (m < 16) }
    requires room_for_keys { min 255 (length file.now) ≤ N }
    ensures machine { MachineRead file.now at m types used (S.Holds store.old) (S.Holds store.new) result }
    ensures few_rows { IfOk result (λ f. f.value.rows ≤ 1024) }
    ensures same_room { S.room store.new ≡ S.room store.old }
    ensures same_lists { S.lent store.new ≡ S.lent store.old }
{
    let states = plant::states_byte(file, at)?;
    let count = plant::rows_byte(file, states.next, used)?;
    let n = usize::from(count.value);
    let from = count.next;
    let head = Head {
        machine: m as u8,
        states: states.value,
        rows: n,
    };
    let next = match read_any_rows(&file[from..], head, types, used, store, keys) {
        Ok(end) => from + end,
        Err(fault) => return Err(file_ends::moved_fault(fault, from)),
    };
    Ok(Field {
        value: Machine {
            states: states.value,
            rows: used + n,
        },
        next,
    })
}

// `n` machines from `from` on.
fn read_machines<S: RowStore, const N: usize>(
    file: &[u8],
    n: usize,
    from: usize,
    types: u8,
    store: &mut S,
    keys: &mut Keys<N>,
) -> Result<Field<Shape>, Fault>
    requires room_for { (min 1024 (length file.now) ≤ S.room store.old) × (types ≤ 64) × (n ≤ 16) × (from ≤ length file.now) × (min 255 (length file.now) ≤ N) }
    requires no_rows { S.Holds store.old [] }
    ensures machines { MachinesRead n file.now from types (S.Holds store.new) result }
    ensures same_lists { S.lent store.new ≡ S.lent store.old }
    ensures same_room { S.room store.new ≡ S.room store.old }
{
    let mut states = [0; 16];
    let mut first = [0; 17];
    let mut at = from;
    let mut rows = 0;
    for i in 0..n {
        let machine = read_machine(file, at, i, types, rows, store, keys)?;
        at = machine.next;
        rows = machine.value.rows;
        states[i] = machine.value.states;
        first[i + 1] = rows as u16;
    }
    Ok(Field {
        value: Shape {
            types,
            machines: n,
            rows,
            states,
            first,
        },
        next: at,
    })
}

// Reads a file into a store of rows, by way of a list of keys that is long enough for its machines.
fn read_with<S: RowStore, const N: usize>(
    file: &[u8],
    store: &mut S,
    keys: &mut Keys<N>,
) -> Result<Shape, Fault>
    requires room_for { (min 1024 (length file.now) ≤ S.room store.old) × (min 255 (length file.now) ≤ N) }
    requires no_rows { S.Holds store.old [] }
    ensures plant { PlantRead file.now (S.Holds store.new) result }
    ensures same_room { S.room store.new ≡ S.room store.old }
    ensures same_lists { S.lent store.new ≡ S.lent store.old }
{
    let machines = plant::machines_byte(file, 0)?;
    let types = plant::types_byte(file, machines.next)?;
    let n = usize::from(machines.value);
    let read = read_machines(file, n, types.next, types.value, store, keys)?;
    file_ends::ends_at(file, read.next)?;
    Ok(read.value)
}

// Reads a file into a store of rows: what the rows lack for a plant, or the first fault. A file of so many bytes has fewer rows, so that a short file needs
// a short list of keys only.
pub fn read_into<S: RowStore>(file: &[u8], store: &mut S) -> Result<Shape, Fault>
    requires room_for { min 1024 (length file.now) ≤ S.room store.old }
    requires no_rows { S.Holds store.old [] }
    ensures plant { PlantRead file.now (S.Holds store.new) result }
    ensures same_room { S.room store.new ≡ S.room store.old }
    ensures same_lists { S.lent store.new ≡ S.lent store.old }
{
    if file.len() <= FEW_ROWS {
        return read_with(file, store, &mut Keys::<FEW_ROWS>::new());
    }
    read_with(file, store, &mut Keys::<MOST_ROWS>::new())
}

// Reads a file into a lent table: its plant, or the first fault. A file of so many bytes has fewer rows, so that a short file needs a short table only.
pub fn decode(file: &[u8], table: &mut [u8]) -> Result<Shape, Fault>
    requires { RoomFor (min 1024 (length file.now)) table.old }
    ensures table_after { decoded_found result (length file.now) table.new ≡ read_plant file.now }
    ensures ready { IfOk result (λ shape. Ready shape table.new) }
{
    read_into(file, &mut TableStore { table })
}
