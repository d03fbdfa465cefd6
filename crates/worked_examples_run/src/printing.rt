// Printing the entries of lists.
ghost use Rattle.std.specs.Prelude.{◌≤◌, length};

use std::fmt;

// Entries of a list, each behind a space.
#[derive(Clone, Copy)]
pub struct Entries<'a>(pub &'a [u16]);

impl fmt::Display for Entries<'_> {
    fn fmt<W: fmt::Write>(&self, f: &mut fmt::Formatter<W>) -> fmt::Result {
        for entry in self.0 {
            write!(f, " {entry}")?;
        }
        Ok(())
    }
}

// Where the lowest of the rows of a cycle stands.
fn lowest(rows: &[u16]) -> usize
    ensures { result ≤ length rows.now }
{
    rows.iter()
        .enumerate()
        .min_by_key(|(_, row)| **row)
        .map_or(0, |(low, _)| low)
}

// The rows of a cycle from the lowest on: it may be shown from any of them.
#[derive(Clone, Copy)]
pub struct Cycle<'a>(pub &'a [u16]);

impl fmt::Display for Cycle<'_> {
    fn fmt<W: fmt::Write>(&self, f: &mut fmt::Formatter<W>) -> fmt::Result {
        let (before, from_lowest) = self.0.split_at(lowest(self.0));
        write!(f, "{}{}", Entries(from_lowest), Entries(before))
    }
}
