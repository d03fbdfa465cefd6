// Weighing a plant.
#![tactic(auto)]

ghost use Rattle.std.specs.Prelude.{◌≤◌, length};
ghost use Rattle.weighing.specs.Answers.{answer_of, weighed_answer, judgement_of, judgement};
ghost use Rattle.weighing.specs.Weighing.{Owed, OwedVerdict};
ghost use Rattle.machines.specs.Machines.{EdgesBeside};
ghost use Rattle.weight_checks.specs.Checks.{judged_weights, judged};
ghost use Rattle.weighing.specs.Inner.Judging.{OwedTable, OwedTableVerdict, RoomToWeigh};

use decoding::Decoded;
use edge_lists::Edge;
use figures::Figures;
use machines::Weighted;
use plant::Fault;
use tables::{LONGEST, SHORT, SHORT_FILE};

// The edges of a machine of a short file: a row takes a byte at least, and clearing long lists would be half of the time;
const SHORT_EDGES: usize = 64;

// and of any machine, which has at most 255 rows.
const EDGES: usize = 256;

// What weighing finds: F, n, G and n × w, or how many rows are shown.
#[derive(Clone, Copy, Debug, PartialEq, Eq)]
pub enum Weighed {
    Passed(Figures),
    Cycle { rows: usize },
}

// Weighs the machines of a plant: the figures, or a shortest cycle.
fn weigh_table(plant: &Weighted, cycle: &mut [u16], edges: &mut [Edge]) -> Weighed
    requires { EdgesBeside plant.now.decoded.table.now edges.old × (64 ≤ length cycle.old) }
    ensures { OwedTable plant.now.decoded.shape plant.now.decoded.table.now plant.now.weights.now cycle.old cycle.new (weighed_answer result) }
{
    let first = machines::first_failing(plant, 0, edges);
    match first {
        None => Weighed::Passed(plant.figures),
        Some(failing) => Weighed::Cycle {
            rows: shortest_cycles::show(plant, failing, edges, cycle),
        },
    }
}

// Reads a file into a table of so many bytes, makes the checks 9 to 11 and weighs, with a list of so many edges.
fn weigh_in<const BYTES: usize, const EDGES: usize>(
    file: &[u8],
    weights: &[u16],
    cycle: &mut [u16],
) -> Result<Weighed, Fault>
    requires { RoomToWeigh (length file.now) BYTES EDGES }
    ensures { Owed weights.now cycle.old cycle.new (answer_of result) (judged file.now weights.now (length cycle.old)) }
{
    let mut table = [0; BYTES];
    let mut edges = [Edge::default(); EDGES];
    let shape = decoding::decode(file, &mut table)?;
    weight_checks::check_weighing(usize::from(shape.types), weights, cycle.len())?;
    let plant = Weighted::new(
        Decoded {
            table: &table,
            shape,
        },
        weights,
    );
    Ok(weigh_table(&plant, cycle, &mut edges))
}

// Weighs the plant of a file: demands 2 and 3.
pub fn weigh(file: &[u8], weights: &[u16], cycle: &mut [u16]) -> Result<Weighed, Fault>
    ensures { Owed weights.now cycle.old cycle.new (answer_of result) (judged file.now weights.now (length cycle.old)) }
{
    if file.len() <= SHORT_FILE {
        return weigh_in::<SHORT, SHORT_EDGES>(file, weights, cycle);
    }
    weigh_in::<LONGEST, EDGES>(file, weights, cycle)
}

// The figures, if the weights pass the machines of a plant; no cycle is searched for.
fn judge_table(plant: &Weighted, edges: &mut [Edge]) -> Option<Figures>
    requires { EdgesBeside plant.now.decoded.table.now edges.old }
    ensures { OwedTableVerdict plant.now.decoded.shape plant.now.decoded.table.now plant.now.weights.now (judgement result) }
{
    match machines::first_failing(plant, 0, edges) {
        None => Some(plant.figures),
        Some(_) => None,
    }
}

// The verdict alone, with a table of so many bytes and a list of so many edges. There is no lent list for a cycle, and no check 11.
fn judge_in<const BYTES: usize, const EDGES: usize>(
    file: &[u8],
    weights: &[u16],
) -> Result<Option<Figures>, Fault>
    requires { RoomToWeigh (length file.now) BYTES EDGES }
    ensures { OwedVerdict weights.now (judgement_of result) (judged_weights file.now weights.now) }
{
    let mut table = [0; BYTES];
    let mut edges = [Edge::default(); EDGES];
    let shape = decoding::decode(file, &mut table)?;
    weight_checks::check_weights(usize::from(shape.types), weights)?;
    let plant = Weighted::new(
        Decoded {
            table: &table,
            shape,
        },
        weights,
    );
    Ok(judge_table(&plant, &mut edges))
}

// Weighs without a cycle to show, and hands back the figures if the weights pass: where they do not, deciding is a small part of the work.
pub fn judge(file: &[u8], weights: &[u16]) -> Result<Option<Figures>, Fault>
    ensures { OwedVerdict weights.now (judgement_of result) (judged_weights file.now weights.now) }
{
    if file.len() <= SHORT_FILE {
        return judge_in::<SHORT, SHORT_EDGES>(file, weights);
    }
    judge_in::<LONGEST, EDGES>(file, weights)
}
