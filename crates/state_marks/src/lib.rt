// The states of a machine as the bits of a number: those that a path has left, and dead ends, which are marked as if they were left.
// No entry point: the crates that list and count cycles call it.
#![tactic(auto)]

ghost use Rattle.std.specs.Prelude.{◌≡◌, ◌<◌, get_or, set, eqb};
ghost use Rattle.state_marks.specs.Marks.{marks_of, BelowOnly, OthersKept, Closed};
ghost use Rattle.graphs.specs.Graphs.{into_of};

use graphs::Graph;

// The bits of 24 states.
pub const ALL: u32 = 16_777_215;

// Whether a state is not yet left: its bit does not stand.
pub fn not_yet_left(marks: u32, state: u8) -> bool
    requires { state < 24 }
    ensures { result ≡ eqb (get_or (marks_of 24 marks) state 0) 0 }
{
    (marks >> state) % 2 == 0
}

// The marks with one state more that is left: its bit is put.
pub fn with_left(marks: u32, state: u8) -> u32
    requires { state < 24 }
    ensures { marks_of 24 result ≡ set (marks_of 24 marks) state 1 }
{
    marks | (1 << state)
}

// The states below one: their bits stand, and no others.
pub fn below(state: u8) -> u32
    requires { state < 24 }
    ensures { BelowOnly state (marks_of 24 result) }
{
    (1 << state) - 1
}

// The bits with one of them turned.
fn turned(bits: u32, state: u32) -> u32
    requires { state < 32 }
    ensures { OthersKept state (marks_of 24 bits) (marks_of 24 result) }
{
    bits ^ (1 << state)
}

// The marks, with dead ends marked as well: the states from which no path over states that are not marked leads back to `start`. The
// others, `live`, are found backward from `start`; `todo` has those of them whose sources are not yet in `live`. Each state is to do at most
// once, and one turn more sees that none is.
pub fn without_dead_ends(graph: &Graph, start: u8, marks: u32) -> u32
    requires { start < 24 }
    ensures { Closed (into_of graph.now) start (marks_of 24 marks) (marks_of 24 result) }
{
    let free = marks ^ ALL;
    let mut live = graph.into_of(usize::from(start)) & free;
    let mut todo = live;
    for _ in 0..25 {
        if todo == 0 {
            return marks | (live ^ ALL);
        }
        let state = todo.trailing_zeros();
        let more = graph.into_of(state as usize) & (free ^ live);
        todo = turned(todo, state) | more;
        live |= more;
    }
    marks
}

// The same once `state` is left, where the dead ends were marked before: if no state that is not marked has a row to it, there are no new ones.
pub fn after_leaving(graph: &Graph, start: u8, state: u8, marks: u32) -> u32
    requires { (start < 24) × (state < 24) }
    ensures { Closed (into_of graph.now) start (marks_of 24 marks) (marks_of 24 result) }
{
    if graph.into_of(usize::from(state)) & (marks ^ ALL) == 0 {
        return marks;
    }
    without_dead_ends(graph, start, marks)
}
