// The bytes of a plant file, stored in a lent buffer one behind the other. Every field of a row is stored, and where its bit does not stand the next one
// takes its place: a store is cheaper than a jump that cannot be foreseen. No entry point: `written_rows` and `writing` call it.
#![tactic(auto)]

ghost use Rattle.std.specs.Prelude.{◌≡◌, ℕ, ◌+◌, ◌≤◌, ◌<◌, length};
ghost use Rattle.plant.specs.Limits.{most_row_bytes};
ghost use Rattle.plant_rows.specs.Rows.{fields_row};
ghost use Rattle.plant_files.specs.Files.{byte_if, type_bytes, shortest_map, row_bytes};
ghost use Rattle.row_bytes.specs.Stores.{Stored};

use plant_rows::RowFields;

// The map byte of a row before which a state is implied.
fn map_of(row: &RowFields, implied: u16) -> u8
    ensures { (m : ℕ) → result ≡ shortest_map implied (fields_row m row.now) }
{
    let states = u8::from(u16::from(row.left) != implied) + u8::from(row.entered != row.left) * 2;
    let types = u8::from(row.sent.is_some()) * 4 + u8::from(row.taken.is_some()) * 8;
    states + types + u8::from(row.progress) * 16
}

// A plant file in a lent buffer, as far as it was stored.
#[derive(Drop)]
pub struct PlantFile<'a> {
    pub bytes: &'a mut [u8],
    pub end: usize,
}

impl PlantFile<'_> {
    // Stores a byte. If it does not stand, the next one takes its place.
    pub fn put(&mut self, byte: u8, stands: bool)
        requires { self.old.end < length self.old.bytes.now }
        ensures same_list { self.new.bytes.ghost_name ≡ self.old.bytes.ghost_name }
        ensures stored { Stored self.old.bytes.now self.new.bytes.now self.old.end (byte_if stands byte) self.new.end }
        ensures upper_bound { self.new.end ≤ self.old.end + 1 }
        ensures long { length self.new.bytes.now ≡ length self.old.bytes.now }
    {
        self.bytes[self.end] = byte;
        self.end += usize::from(stands);
    }

    // Stores a type, where there is one.
    fn put_type(&mut self, message: Option<u8>)
        requires { self.old.end < length self.old.bytes.now }
        ensures same_list { self.new.bytes.ghost_name ≡ self.old.bytes.ghost_name }
        ensures stored { Stored self.old.bytes.now self.new.bytes.now self.old.end (type_bytes message) self.new.end }
        ensures upper_bound { self.new.end ≤ self.old.end + 1 }
        ensures long { length self.new.bytes.now ≡ length self.old.bytes.now }
    {
        self.put(message.unwrap_or(0), message.is_some());
    }

    // Stores a row before which a state is implied.
    pub fn put_row(&mut self, row: &RowFields, implied: u16)
        requires { self.old.end + most_row_bytes ≤ length self.old.bytes.now }
        ensures same_list { self.new.bytes.ghost_name ≡ self.old.bytes.ghost_name }
        ensures by_index { (m : ℕ) → Stored self.old.bytes.now self.new.bytes.now self.old.end (row_bytes implied (fields_row m row.now)) self.new.end }
        ensures upper_bound { self.new.end ≤ self.old.end + most_row_bytes }
        ensures long { length self.new.bytes.now ≡ length self.old.bytes.now }
    {
        self.put(map_of(row, implied), true);
        self.put(row.left, u16::from(row.left) != implied);
        self.put(row.entered, row.entered != row.left);
        self.put_type(row.sent);
        self.put_type(row.taken);
    }
}
