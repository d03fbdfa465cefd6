// A table of decoded rows: one lent list of bytes, eight for each row. Row k stands in the bytes from 8 × k on: its machine, the state it leaves,
// the state it enters, the type it sends, the type it takes (64 stands for no type), and 1 if it is a progress row. Two bytes are unused.
// No entry point: these functions have the only indices into a table, and the other crates know their contracts.
#![tactic(auto)]

ghost use Rattle.std.specs.Prelude.{◌≡◌, ◌+◌, ◌<◌};
ghost use Rattle.std.specs.Option.{ForSome};
ghost use Rattle.plant.specs.Steps.{type_of};
ghost use Rattle.plant_rows.specs.Rows.{fields_row};
ghost use Rattle.tables.specs.Tables.{row_in, row_of, RoomFor, Stored};

use plant_rows::RowFields;

// The rows that a plant can have,
pub const PLANT_ROWS: usize = 1024;

// the bytes of a table of so many,
pub const LONGEST: usize = 8192;

// and of one of 64 rows.
pub const SHORT: usize = 512;

// A file of at most so many bytes needs the short table only, since a row takes a byte at least: clearing the long one would take half of the time.
pub const SHORT_FILE: usize = 64;

// What stands in a column for no type.
const NO_TYPE: u8 = 64;

// The type that a byte of a column stands for.
fn type_of(column: u8) -> Option<u8>
    ensures { (result ≡ type_of column) × ForSome result (λ t. t < 64) }
{
    if column < NO_TYPE { Some(column) } else { None }
}

// The byte of a column that stands for a type.
fn column_of(kind: Option<u8>) -> u8
    requires { ForSome kind (λ t. t < 64) }
    ensures { type_of result ≡ kind }
{
    kind.unwrap_or(NO_TYPE)
}

// A row of a table.
#[derive(Clone, Copy, Debug, PartialEq, Eq)]
pub struct TableRow {
    pub machine: u8,
    pub fields: RowFields,
}

// Row k.
pub fn row_in(table: &[u8], k: usize) -> TableRow
    requires { RoomFor (k + 1) table.now }
    ensures { row_of result ≡ row_in table.now k }
{
    let at = 8 * k;
    TableRow {
        machine: table[at],
        fields: RowFields {
            left: table[at + 1],
            entered: table[at + 2],
            sent: type_of(table[at + 3]),
            taken: type_of(table[at + 4]),
            progress: table[at + 5] == 1,
        },
    }
}

// Stores a row that was read, as row k.
pub fn store_row(table: &mut [u8], k: usize, machine: u8, row: RowFields)
    requires { RoomFor (k + 1) table.old }
    ensures { Stored k (fields_row machine row) table.old table.new }
{
    let at = 8 * k;
    table[at] = machine;
    table[at + 1] = row.left;
    table[at + 2] = row.entered;
    table[at + 3] = column_of(row.sent);
    table[at + 4] = column_of(row.taken);
    table[at + 5] = u8::from(row.progress);
}
