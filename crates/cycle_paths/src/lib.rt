// The simple cycles of some rows, by depth-first extension of a path. It knows no plant. No entry point: `cycle_counts` and
// `listing` call it.
#![tactic(auto)]

ghost use Rattle.std.specs.Prelude.{◌≡◌, ◌<◌, ◌^◌, length};
ghost use Rattle.graphs.specs.Graphs.{left_of, entered_of, next_of, head_of, into_of, last_of};
ghost use Rattle.state_marks.specs.Marks.{column, marks_of, Closed};
ghost use Rattle.cycle_entries.specs.Entries.{used_if, Added};
ghost use Rattle.cycle_paths.specs.Cycles.{left_only};
ghost use Rattle.cycle_paths.specs.Rows.{Searchable};
ghost use Rattle.cycle_paths.specs.Entries.{all_entries};
ghost use Rattle.cycle_paths.specs.Extensions.{step_of};
ghost use Rattle.cycle_paths.specs.Inner.Extending.{Extendable, ExtendedIn};

use arrayvec::ArrayVec;
use cycle_entries::Listing;
use graphs::Graph;
use std::ops::Range;

// What a row does for a path: nothing, it closes the cycle, or it enters a state not yet left.
#[derive(Clone, Copy, PartialEq, Eq, Debug)]
pub enum Step {
    Skip,
    Close,
    Enter(u8),
}

// A search for cycles: the graph, and the state from which they start.
#[derive(Clone, Copy)]
pub struct Search<'a> {
    pub graph: &'a Graph,
    pub start: u8,
}

impl<'a> Search<'a> {
    // The search from the state that row k leaves.
    pub fn from_row(graph: &'a Graph, k: usize) -> Search<'a>
        requires { k < 1024 }
        ensures graph { result.graph.now ≡ graph.now }
        ensures start { result.start ≡ column (left_of graph.now) k }
    {
        Search {
            graph,
            start: graph.left_of(k),
        }
    }

    // The marks with which the search begins: of the states below the start, which no path enters, of the start, and of dead ends.
    pub fn first_marks(self) -> u32
        requires { self.start < 24 }
        ensures { Closed (into_of self.entry.graph.now) self.entry.start (left_only 24 self.entry.start) (marks_of 24 result) }
    {
        let low = state_marks::below(self.start);
        let marked = state_marks::with_left(low, self.start);
        state_marks::without_dead_ends(self.graph, self.start, marked)
    }

    // What row k does for a path that stands at the state which the row leaves.
    pub fn step_of(self, marks: u32, k: usize) -> Step
        requires { (k < 1024) × (column (entered_of self.graph.now) k < 24) }
        ensures { result ≡ step_of (entered_of self.entry.graph.now) self.entry.start (marks_of 24 marks) k }
    {
        let state = self.graph.entered_of(k);
        if state == self.start {
            return Step::Close;
        }
        if state < self.start {
            return Step::Skip;
        }
        if state_marks::not_yet_left(marks, state) {
            return Step::Enter(state);
        }
        Step::Skip
    }
}

// Adds the cycles that begin with the rows of a path and go on by one of the linked rows of a range: depth-first extension of the path,
// which is as it was when that is done. The states not yet left become fewer at each call, and no row is tried once the list has no room.
// Dead ends are marked as if they were left, so that no path is extended in vain.
fn extend(
    search: Search,
    marks: u32,
    path: &mut ArrayVec<u16, 24>,
    rows: Range<usize>,
    listing: &mut Listing,
) -> Option<()>
    requires { Extendable (entered_of search.graph.now) (next_of search.graph.now) (head_of search.graph.now) (into_of search.graph.now) (last_of search.graph.now) search.start (marks_of 24 marks) path.old.items rows.start rows.end (length listing.old.list.now) listing.old.used }
    ensures path_kept { path.new.items ≡ path.old.items }
    ensures same_list { listing.new.list.ghost_name ≡ listing.old.list.ghost_name }
    ensures same_length { length listing.new.list.now ≡ length listing.old.list.now }
    ensures extended_in { ExtendedIn search.entry.graph.now search.entry.start (marks_of 24 marks) path.old.items rows.start rows.end listing.old.list.now listing.old.used (used_if result listing.new.used) listing.new.list.now }
{
    let mut k = rows.start;
    while k < rows.end {
        match search.step_of(marks, k) {
            Step::Skip => {}
            Step::Close => listing.add_cycle(path.as_slice(), k as u16)?,
            Step::Enter(state) => {
                let onward = search.graph.head_of(state)..search.graph.last_of();
                let marked = state_marks::with_left(marks, state);
                let closed = state_marks::after_leaving(search.graph, search.start, state, marked);
                path.push(k as u16);
                let added = extend(search, closed, path, onward, listing);
                path.pop();
                added?;
            }
        }
        k = search.graph.next_of(k);
    }
    Some(())
}

// Lists the cycles of the rows from `first` up to, and not including, `last`, by the row they begin with, and hands back how much of the list they
// take, if it has room for them all.
pub fn list_rows(graph: &Graph, first: usize, last: usize, out: &mut [u16]) -> Option<usize>
    requires { Searchable graph.now first last × (length out.old < 2 ^ 63) }
    ensures { Added (length out.old) out.old 0 (all_entries (left_of graph.now) (entered_of graph.now) first last) result out.new }
{
    let mut path = ArrayVec::new();
    let mut listing = Listing { list: out, used: 0 };
    for row in first..last {
        let search = Search::from_row(graph, row);
        let marks = search.first_marks();
        extend(search, marks, &mut path, row..row + 1, &mut listing)?;
    }
    Some(listing.used)
}
