// The cycle shown: a shortest of all machines. Rows go into a buffer, and are copied once to the lent list: a shorter cycle of a later
// machine must not leave there the rest of a longer one. No entry point: `weighing` calls it.
#![tactic(auto)]

ghost use Rattle.std.specs.Prelude.{◌-◌, ◌≤◌, length, Some};
ghost use Rattle.decoding.specs.Tables.{plant_of};
ghost use Rattle.machines.specs.Machines.{EdgesBeside, FirstFailing};
ghost use Rattle.searching.specs.Searches.{ShownWithin};
ghost use Rattle.shortest_cycles.specs.ShortestCycles.{ShownShortest};
ghost use Rattle.shortest_cycles.specs.Inner.Turns.{ShortestOf};

use edge_lists::{Edge, Edges};
use machines::{Failing, Weighted};

// No simple cycle has more rows than a machine can have states.
const MOST: usize = 64;

// Searches the edges of a machine for a cycle with fewer than `least` rows. Writes the rows of a shortest, and hands back how many they are.
fn shorter(edges: Edges, least: usize, rows: &mut [u16; MOST]) -> Option<usize>
    requires { 1 ≤ least }
    ensures { ShownWithin edges.entry.list.now (least - 1) result rows.old rows.new }
{
    searching::show(edges, edges.states.min(least - 1), rows)
}

// Writes the rows of a shortest cycle of the machines from the first that fails, whose edges stand in the list; hands back how many they are.
// A machine that passes is not searched, and each later one that fails only for cycles shorter than the shortest so far.
fn shortest(plant: &Weighted, first: Failing, edges: &mut [Edge], rows: &mut [u16; MOST]) -> usize
    requires failing { FirstFailing plant.now.decoded.shape plant.now.decoded.table.now plant.now.weights.now 0 (Some first) edges.old }
    requires room { EdgesBeside plant.now.decoded.table.now edges.old }
    ensures { ShortestOf (plant_of plant.now.decoded.shape plant.now.decoded.table.now) plant.now.weights.now plant.now.decoded.shape.machines result rows.new }
{
    let list = first.edges(plant, edges);
    let mut least = searching::show(list, list.states, rows).unwrap();
    let mut from = first.machine + 1;
    while let Some(next) = machines::first_failing(plant, from, edges) {
        least = shorter(next.edges(plant, edges), least, rows).unwrap_or(least);
        from = next.machine + 1;
    }
    least
}

// Writes the rows of a shortest cycle that weighs zero or more, of all machines, to the front of the list, and hands back how many they are.
// `first` is the first machine that fails, and its edges stand in the list of edges.
pub fn show(plant: &Weighted, first: Failing, edges: &mut [Edge], cycle: &mut [u16]) -> usize
    requires failing { FirstFailing plant.now.decoded.shape plant.now.decoded.table.now plant.now.weights.now 0 (Some first) edges.old }
    requires room { EdgesBeside plant.now.decoded.table.now edges.old × (64 ≤ length cycle.old) }
    ensures { ShownShortest (plant_of plant.now.decoded.shape plant.now.decoded.table.now) plant.now.weights.now result cycle.old cycle.new }
{
    let mut rows = [0; MOST];
    let least = shortest(plant, first, edges, &mut rows);
    cycle[..least].copy_from_slice(&rows[..least]);
    least
}
