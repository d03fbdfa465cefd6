// A cycle of an edge list to show: the closed walk with the fewest edges that weighs zero or more. It knows no plant. No entry point:
// `shortest_cycles` calls it.
#![tactic(auto)]

ghost use Rattle.std.specs.Prelude.{◌≤◌, length};
ghost use Rattle.deciding.specs.Rounds.{edge_graph};
ghost use Rattle.searching.specs.Searches.{LeastWithin, ShownWithin};

use closed_walks::Walks;
use edge_lists::Edges;

// A state, and how many edges a closed walk from it has.
#[derive(Clone, Copy)]
struct Start {
    start: usize,
    length: usize,
}

// Where such a walk with the fewest edges begins, and how many it has; none if none has as few as the limit.
fn least<const S: usize>(edges: Edges, limit: usize, walks: &mut Walks<S>) -> Option<Start>
    requires { (edges.states ≤ S) × (limit ≤ edges.states) }
    ensures { LeastWithin (edge_graph edges.entry.list.now) edges.entry.states limit result }
{
    let mut found = None;
    let mut most = limit;
    for start in 0..edges.states {
        if let Some(length) = walks.least_from(edges, start, most) {
            found = Some(Start { start, length });
            most = length - 1;
        }
    }
    found
}

// Finds a cycle with the fewest edges and writes its rows to the front of the list, in running order; hands back how many they are, or none
// if no cycle has as few as the limit. All starts use the same tables, for S states: the rounds from the start found are made once more, for later starts have
// overwritten the first edges.
fn show_in<const S: usize>(edges: Edges, limit: usize, cycle: &mut [u16]) -> Option<usize>
    requires { (edges.states ≤ S) × (S ≤ 64) × (limit ≤ edges.states) × (64 ≤ length cycle.old) }
    ensures { ShownWithin edges.entry.list.now limit result cycle.old cycle.new }
{
    let mut walks = Walks::<S>::new();
    let found = least(edges, limit, &mut walks)?;
    let mut s = found.start;
    let k = walks.least_from(edges, s, found.length)?;
    for i in 0..k {
        let e = walks.first_edge(k - i - 1, s);
        let edge = edges.list[e];
        cycle[i] = edge.row;
        s = usize::from(edge.to);
    }
    Some(k)
}

// The same: a machine of few states needs small tables, and clearing 4,096 bytes of first edges would be a sixth of its time.
pub fn show(edges: Edges, limit: usize, cycle: &mut [u16]) -> Option<usize>
    requires { (limit ≤ edges.states) × (64 ≤ length cycle.old) }
    ensures { ShownWithin edges.entry.list.now limit result cycle.old cycle.new }
{
    if edges.states <= 8 {
        show_in::<8>(edges, limit, cycle)
    } else {
        show_in::<64>(edges, limit, cycle)
    }
}
