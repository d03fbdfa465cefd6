// Closed walks of an edge list from one start: the least number of edges with which one weighs zero or more. It knows no plant. No entry point:
// `searching` calls it.
#![tactic(auto)]

ghost use Rattle.std.specs.Prelude.{◌≡◌, ◌≤◌, ◌<◌, length, pos, ◌-ℤ◌, replicate};
ghost use Rattle.deciding.specs.Rounds.{edge_graph};
ghost use Rattle.closed_walks.specs.ClosedWalks.{origin, entry, LeastFrom, Noted};
ghost use Rattle.closed_walks.specs.Inner.Rounds.{Square, RoundReady, Round};

use deciding::relaxing::{raised, rises};
use edge_lists::Edges;

// The number that stands for the weight 0 in a table of walks; 0 stands for no walk.
const ORIGIN: u64 = 1099511627776;

// The tables of a search, for a machine of at most S states: for each state, the greatest weight of a walk of exactly k edges to the start (`shorter`), and
// of k + 1 edges (`longer`); and in row k, for each state, the first edge of a heaviest walk of k + 1 edges from it (`noted`), so that the walk found can be
// written without a search. `square` tells proofs what the type says of each row.
#[derive(Drop)]
pub struct Walks<const S: usize> {
    shorter: [u64; S],
    longer: [u64; S],
    noted: [[u8; S]; S],
    ghost small: { S ≤ 64 },
    ghost square: { Square S noted },
}

// The weight of a walk of the table.
fn walk_weight(value: u64) -> i64
    requires { value ≤ 2199023255552 }
    ensures { result ≡ pos value -ℤ pos origin }
{
    value as i64 - ORIGIN as i64
}

// One edge, and on as far as the table of shorter walks says, from each state, into that of the longer ones; the edge is noted in row k. The number of a is
// read first: read just before the test, the compiler would store it at every edge, raised or not.
fn round<const S: usize>(
    edges: Edges,
    shorter: &[u64],
    longer: &mut [u64],
    noted: &mut [[u8; S]; S],
    k: usize,
)
    requires { (length shorter.now ≡ edges.states) × RoundReady S k shorter.now longer.old noted.old }
    ensures { Round (edge_graph edges.entry.list.now) S (length edges.entry.list.now) k shorter.now longer.new noted.old noted.new }
{
    for (i, edge) in edges.list.iter().enumerate() {
        let a = usize::from(edge.from);
        let here = longer[a];
        let b = usize::from(edge.to);
        let next = shorter[b];
        let w = i64::from(edge.weight);
        if rises(here, next, w) {
            longer[a] = raised(here, next, w);
            noted[k][a] = i as u8;
        }
    }
}

impl<const S: usize> Walks<S> {
    // Tables with no walk, in which nothing is noted.
    pub fn new() -> Self
        requires { S ≤ 64 }
        ensures none { (result.shorter ≡ replicate S 0) × (result.longer ≡ replicate S 0) }
        ensures noted { result.noted ≡ replicate S (replicate S 0) }
    {
        Walks {
            shorter: [0; S],
            longer: [0; S],
            noted: [[0; S]; S],
        }
    }

    // The first edge that is noted of a walk of k + 1 edges from state s.
    pub fn first_edge(&self, k: usize, s: usize) -> usize
        requires { (k < S) × (s < S) }
        ensures { result ≡ entry self.now.noted k s }
    {
        usize::from(self.noted[k][s])
    }

    // The least number of edges up to `limit` with which a closed walk from the start weighs zero or more, or none.
    pub fn least_from(&mut self, edges: Edges, start: usize, limit: usize) -> Option<usize>
        requires { (edges.states ≤ S) × (start < edges.states) × (limit ≤ edges.states) }
        ensures least_from { LeastFrom (edge_graph edges.entry.list.now) start limit result }
        ensures noted { Noted (edge_graph edges.entry.list.now) edges.entry.states start result self.new.noted }
    {
        let Walks {
            shorter,
            longer,
            noted,
        } = self;
        let mut shorter = &mut shorter[..edges.states];
        let mut longer = &mut longer[..edges.states];
        shorter.fill(0);
        shorter[start] = ORIGIN;
        for k in 0..limit {
            longer.fill(0);
            round(edges, shorter, longer, noted, k);
            (shorter, longer) = (longer, shorter);
            if walk_weight(shorter[start]) >= 0 {
                return Some(k + 1);
            }
        }
        None
    }
}
