// The number of entries that the listing of some rows needs, by depth-first extension of a path whose rows are not kept. No entry point:
// `listing` calls it.
#![tactic(auto)]

ghost use Rattle.std.specs.Prelude.{◌≡◌, suc, ◌+◌, ◌-◌, ◌*◌, ◌≤◌, ◌<◌, ◌^◌, min, length};
ghost use Rattle.graphs.specs.Graphs.{left_of, entered_of, next_of, head_of, into_of, between_of, pair, last_of};
ghost use Rattle.state_marks.specs.Marks.{marks_of};
ghost use Rattle.cycle_paths.specs.Rows.{Searchable};
ghost use Rattle.cycle_paths.specs.Entries.{all_entries};
ghost use Rattle.cycle_counts.specs.Pairs.{Between};
ghost use Rattle.cycle_counts.specs.Inner.Counting.{Countable, CountedIn};

use cycle_paths::{Search, Step};
use graphs::Graph;
use state_marks::ALL;
use std::ops::Range;

// Takes from the room the entries of the cycles that begin with `depth` rows of a path to `state` and end with a row from there to the start.
fn take_closing(search: Search, state: u8, depth: usize, room: usize) -> usize
    requires { (state < 24) × (search.start < 24) × (depth ≤ 24) × (pair (between_of search.graph.now) state search.start ≤ 1024) }
    ensures { result ≡ room - pair (between_of search.entry.graph.now) state search.entry.start * (depth + 2) }
{
    let rows = search.graph.between_of(state, search.start);
    room.saturating_sub(rows * (depth + 2))
}

// Takes from the room the entries of the cycles that begin with `depth` rows of a path and go on by one of the linked rows of a range:
// depth-first extension of the path, of which only the number of rows is kept. The states not yet left become fewer at each call, dead
// ends are marked as if they were left, and no row is tried once no room is left. Where all states are marked only rows to the start go
// on, and their number is known.
fn count(search: Search, marks: u32, depth: usize, rows: Range<usize>, room: usize) -> usize
    requires { Countable (entered_of search.graph.now) (next_of search.graph.now) (head_of search.graph.now) (into_of search.graph.now) (between_of search.graph.now) (last_of search.graph.now) search.start (marks_of 24 marks) depth rows.start rows.end }
    ensures { CountedIn search.entry.graph.now search.entry.start (marks_of 24 marks) depth rows.start rows.end room result }
{
    let mut rest = room;
    let mut k = rows.start;
    while k < rows.end {
        if rest == 0 {
            return 0;
        }
        match search.step_of(marks, k) {
            Step::Skip => {}
            Step::Close => rest = rest.saturating_sub(depth + 2),
            Step::Enter(state) => {
                let marked = state_marks::with_left(marks, state);
                let closed = state_marks::after_leaving(search.graph, search.start, state, marked);
                if closed == ALL {
                    rest = take_closing(search, state, depth + 1, rest);
                } else {
                    let onward = search.graph.head_of(state)..search.graph.last_of();
                    rest = count(search, closed, depth + 1, onward, rest);
                }
            }
        }
        k = search.graph.next_of(k);
    }
    rest
}

// The number of entries that the listing of the rows from `first` up to, and not including, `last` needs, counted up to one above the limit.
pub fn count_rows(graph: &Graph, first: usize, last: usize, limit: usize) -> usize
    requires { Searchable graph.now first last × Between (left_of graph.now) (entered_of graph.now) (between_of graph.now) first last × (limit < 2 ^ 63) }
    ensures { result ≡ min (suc limit) (length (all_entries (left_of graph.now) (entered_of graph.now) first last)) }
{
    let room = limit + 1;
    let mut rest = room;
    for row in first..last {
        let search = Search::from_row(graph, row);
        rest = count(search, search.first_marks(), 0, row..row + 1, rest);
    }
    room - rest
}
