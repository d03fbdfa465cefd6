// One entry of a listing, stored in a lent list: the row count and the rows of a cycle. No entry point: `cycle_paths` calls it.
#![tactic(auto)]

ghost use Rattle.std.specs.Prelude.{◌≡◌, suc, ◌+◌, ◌≤◌, ◌<◌, ◌^◌, length, IsNone};
ghost use Rattle.std.proofs.lemmas.List.Edits.{sets};
ghost use Rattle.cycle_entries.specs.Entries.{entry_of, used_if, Added};

// A lent list, and how many of its numbers the entries so far take.
#[derive(Drop)]
pub struct Listing<'a> {
    pub list: &'a mut [u16],
    pub used: usize,
}

impl Listing<'_> {
    // Stores the row count and the rows of a cycle behind the entries so far: the rows of a path, and the row that closes it.
    fn write_cycle(&mut self, path: &[u16], row: u16)
        requires { (length path.now ≤ 24) × (self.old.used + length path.now + 2 ≤ length self.old.list.now) }
        ensures same_list { self.new.list.ghost_name ≡ self.old.list.ghost_name }
        ensures used { self.new.used ≡ self.old.used + length path.now + 2 }
        ensures stored { self.new.list.now ≡ sets self.old.list.now self.old.used (entry_of path.now row) }
    {
        let pos = self.used;
        let last = pos + 1 + path.len();
        self.list[pos] = path.len() as u16 + 1;
        self.list[pos + 1..last].copy_from_slice(path);
        self.list[last] = row;
        self.used = last + 1;
    }

    // Adds a cycle to the entries so far, if the list has room for it; else they are as many as before.
    pub fn add_cycle(&mut self, path: &[u16], row: u16) -> Option<()>
        requires { (length path.now ≤ 24) × (self.old.used ≤ suc (length self.old.list.now)) × (length self.old.list.now < 2 ^ 63) }
        ensures same_list { self.new.list.ghost_name ≡ self.old.list.ghost_name }
        ensures same_length { length self.new.list.now ≡ length self.old.list.now }
        ensures none_used { IsNone result → self.new.used ≡ self.old.used }
        ensures added { Added (length self.old.list.now) self.old.list.now self.old.used (entry_of path.now row) (used_if result self.new.used) self.new.list.now }
    {
        if self.used + path.len() + 2 > self.list.len() {
            return None;
        }
        self.write_cycle(path, row);
        Some(())
    }
}
