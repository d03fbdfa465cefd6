// The machines of a plant, one after the other: the first with a quiet cycle that weighs zero or more. No entry point: `shortest_cycles` and
// `weighing` call it.
#![tactic(auto)]

ghost use Rattle.std.specs.Prelude.{◌≡◌, ◌≤◌, take};
ghost use Rattle.livelock.specs.Plants.{state_count};
ghost use Rattle.decoding.specs.Tables.{plant_of};
ghost use Rattle.machines.specs.Machines.{EdgesBeside, Fails, FirstFailing};

use edge_lists::{Edge, Edges};
pub use weighted::Weighted;

mod weighted;

// A machine with a cycle that weighs zero or more, and how many edges it has.
#[derive(Clone, Copy, Debug, PartialEq, Eq)]
pub struct Failing {
    pub machine: usize,
    pub count: usize,
}

impl Failing {
    // Its edges, which `first_failing` left at the front of the list.
    pub fn edges<'a>(self, plant: &Weighted, list: &'a [Edge]) -> Edges<'a>
        requires { Fails plant.now.decoded.shape plant.now.decoded.table.now plant.now.weights.now list.now self }
        ensures list { result.list.now ≡ take self.count list.now }
        ensures states { result.states ≡ state_count (plant_of plant.now.decoded.shape plant.now.decoded.table.now) self.machine }
    {
        Edges {
            list: &list[..self.count],
            states: plant.decoded.states_of(self.machine),
        }
    }
}

// Lists the quiet rows of one machine after the other, from machine `from` up to the first with a cycle that weighs zero or more; its edges stay in the list.
pub fn first_failing(plant: &Weighted, from: usize, edges: &mut [Edge]) -> Option<Failing>
    requires { (from ≤ plant.now.decoded.shape.machines) × EdgesBeside plant.now.decoded.table.now edges.old }
    ensures { FirstFailing plant.now.decoded.shape plant.now.decoded.table.now plant.now.weights.now from result edges.new }
{
    let decoded = plant.decoded;
    for m in from..decoded.shape.machines {
        let rows = decoded.rows_of(m);
        let count = edges::edges_of(decoded.table, rows, plant.weights, edges);
        let list = Edges {
            list: &edges[..count],
            states: decoded.states_of(m),
        };
        if !deciding::decide(list, plant.figures.most_states) {
            return Some(Failing { machine: m, count });
        }
    }
    None
}
