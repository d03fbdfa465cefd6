// An entry of a cycle set whose numbers were read.
ghost use Rattle.std.specs.Prelude.{◌≤◌, length};
ghost use Rattle.set_entries.specs.RowsThere.{RowsThere};

// A machine, how many times the rows of its cycle count, and these rows, by number, of a table that has room for each.
#[derive(Clone, Copy)]
pub struct Entry<'a> {
    pub table: &'a [u8],
    pub machine: u32,
    pub repeats: u32,
    pub rows: &'a [u32],
    pub ghost there: { RowsThere table.now rows.now 0 (length rows.now) },
    pub ghost few_rows: { length rows.now ≤ 64 },
    pub ghost few_repeats: { repeats ≤ 1000000 },
}
