// Whether every simple cycle of an edge list weighs below zero: relaxation in place (Bellman and Ford) with lengths 1 + n × weight. It
// knows no plant. No entry point: `machines` calls it, and `closed_walks` its relaxation of an edge.
#![tactic(auto)]

ghost use Rattle.std.specs.Prelude.{◌≡◌, ◌≤◌, length, pos, ◌+ℤ◌, ◌*ℤ◌};
ghost use Rattle.livelock.specs.Graphs.{lengthened};
ghost use Rattle.edge_lists.specs.Signs.{rise, fall};
ghost use Rattle.deciding.specs.Rounds.{edge_graph, AtMost, Pass, Decided};

use edge_lists::Edges;
use relaxing::{raised, rises};

pub mod relaxing;

// The length of a row: of a cycle of at most n rows it is above zero exactly when the cycle weighs zero or more.
fn row_length(n: u64, weight: i64) -> i64
    requires { (n ≤ 64) × (rise weight ≤ 65535) × (fall weight ≤ 65535) }
    ensures { result ≡ pos 1 +ℤ pos n *ℤ weight }
{
    1 + n as i64 * weight
}

// One pass over the edges, in place, with a height for each state; the last edge that raised a height, or none. The height of a is read first: read just
// before the test, the compiler would store it at every edge, raised or not, and the next edge would wait for the store. The last edge is a number until
// the end: with an Option in the loop the compiler makes two loops of it, and a pass takes 1.5 times as long.
fn relax(edges: Edges, n: u64, heights: &mut [u64]) -> Option<usize>
    requires { (edges.states ≤ length heights.old) × (n ≤ 64) × AtMost 68719476736 heights.old }
    ensures { Pass (lengthened n (edge_graph edges.entry.list.now)) (length edges.entry.list.now) heights.old heights.new result }
{
    let mut last = edges.list.len();
    for (i, edge) in edges.list.iter().enumerate() {
        let a = usize::from(edge.from);
        let height = heights[a];
        let b = usize::from(edge.to);
        let next = heights[b];
        let length = row_length(n, i64::from(edge.weight));
        if rises(height, next, length) {
            heights[a] = raised(height, next, length);
            last = i;
        }
    }
    if last < edges.list.len() {
        Some(last)
    } else {
        None
    }
}

// Whether every simple cycle weighs below zero, with heights for S states, each 0 at first. A pass that raises no height says yes; if each of as many
// passes as there are states raises one, the answer is no.
fn decide_in<const S: usize>(edges: Edges, n: u64) -> bool
    requires { (edges.states ≤ S) × (S ≤ 64) × (edges.states ≤ n) × (n ≤ 64) }
    ensures { Decided (edge_graph edges.entry.list.now) result }
{
    let mut heights = [0; S];
    for _ in 0..edges.states {
        if relax(edges, n, &mut heights).is_none() {
            return true;
        }
    }
    false
}

// The same: a machine of few states needs few heights, and clearing 64 for each machine would be a tenth of the time.
pub fn decide(edges: Edges, n: u64) -> bool
    requires { (edges.states ≤ n) × (n ≤ 64) }
    ensures { Decided (edge_graph edges.entry.list.now) result }
{
    if edges.states <= 8 {
        decide_in::<8>(edges, n)
    } else {
        decide_in::<64>(edges, n)
    }
}
