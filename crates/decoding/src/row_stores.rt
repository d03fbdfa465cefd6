// Where the rows that are read go: into a lent table, or nowhere.

ghost use Rattle.std.specs.Prelude.{◌≡◌, List, [], ◌∷◌, ◌++◌, map, ℕ, ◌/◌, ◌<◌, length};
ghost use Rattle.std.specs.Borrow.{GName};
ghost use Rattle.livelock.specs.Lists.{below};
ghost use Rattle.livelock.specs.Plants.{Row};
ghost use Rattle.plant_rows.specs.Rows.{fields_row};
ghost use Rattle.tables.specs.Tables.{row_in};

use plant_rows::RowFields;

// A store of the rows that are read.
pub trait RowStore {
    // Its rows, from the first on, are these.
    ghost Holds: { Self → List Row → Type 0 };

    // It has room for so many rows.
    ghost room: { Self → ℕ };

    // The names of the lists that are lent to it.
    ghost lent: { Self → List GName };

    // Keeps a row behind the `k` rows that the store holds.
    fn store_row(&mut self, k: usize, machine: u8, row: RowFields)
        requires { k < room self.old }
        ensures kept { (rows : List Row) → length rows ≡ k → Holds self.old rows → Holds self.new (rows ++ (fields_row machine row ∷ [])) }
        ensures same_room { room self.new ≡ room self.old }
        ensures same_lists { lent self.new ≡ lent self.old };
}

// A lent table of bytes.
#[derive(Drop)]
pub struct TableStore<'a> {
    pub table: &'a mut [u8],
}

impl RowStore for TableStore<'_> {
    ghost Holds = { λ t rows. rows ≡ map (row_in t.table.now) (below (length rows)) };

    ghost room = { λ t. length t.table.now / 8 };

    ghost lent = { λ t. t.table.ghost_name ∷ [] };

    fn store_row(&mut self, k: usize, machine: u8, row: RowFields) {
        tables::store_row(self.table, k, machine, row);
    }
}
