// A watcher, and its opening on a plant file, weights and contents. The events that it takes are crate `watching`'s.
#![tactic(auto)]

ghost use Rattle.std.specs.Prelude.{◌≡◌, ◌≤◌, length, take};
ghost use Rattle.watched_runs.specs.Answers.{answer_of};
ghost use Rattle.watched_runs.specs.Owed.{blank, Opens};
ghost use Rattle.watchers.specs.Watchers.{kept_in};
ghost use Rattle.watchers.specs.Inner.Openings.{Widened, Passing, FiguresFor, Readable, Begun};

use figures::Figures;
use plant::Fault;
use std::array;

// What a watcher keeps: a copy of the file, and the table of its rows; the sizes, which are the file's length, the counts of rows and of types, G and
// n × w; the states and the contents; and the counts, which are the quiet rows left, the progress rows so far and the doublings so far.
#[derive(Debug, PartialEq, Eq, Drop)]
pub struct Watcher {
    pub copy: [u8; tables::LONGEST],
    pub table: [u8; tables::LONGEST],
    pub sizes: [u64; 5],
    pub states: [u8; 16],
    pub contents: [u64; 64],
    pub counts: [u64; 3],
}

// What opening hands back: a watcher, and how many quiet rows are left. A refusal comes with a watcher too, of zeros alone, so this is no plain Result.
#[derive(Debug, PartialEq, Eq, Drop)]
pub struct Opened {
    pub watcher: Watcher,
    pub answer: Result<u64, Fault>,
}

// A watcher after a refused opening: zeros alone.
fn unopened() -> Watcher
    ensures { kept_in result ≡ blank }
{
    Watcher {
        copy: [0; tables::LONGEST],
        table: [0; tables::LONGEST],
        sizes: [0; 5],
        states: [0; 16],
        contents: [0; 64],
        counts: [0; 3],
    }
}

// A file's bytes, and zeros behind them.
fn copy_of(file: &[u8]) -> [u8; tables::LONGEST]
    requires { length file.now ≤ 8192 }
    ensures { take (length file.now) result ≡ file.now }
{
    let mut copy = [0; tables::LONGEST];
    copy[..file.len()].copy_from_slice(file);
    copy
}

// The contents in 64 bits, and zeros behind them.
fn widened(contents: &[u32]) -> [u64; 64]
    requires { length contents.now ≤ 64 }
    ensures { Widened contents.now result (length contents.now) }
{
    array::from_fn(|t| contents.get(t).map_or(0, |content| u64::from(*content)))
}

// The figures of weights that pass.
fn figures_for(file: &[u8], weights: &[u16]) -> Figures
    requires { Passing file.now weights.now }
    ensures { FiguresFor file.now weights.now result }
{
    weighing::judge(file, weights).unwrap().unwrap()
}

// A watcher that has just opened, with the ceiling and the figures of its weights.
fn begun(file: &[u8], contents: &[u32], ceiling: u64, figures: Figures) -> Watcher
    requires { (length file.now ≤ 8192) × (length contents.now ≤ 64) × Readable file.now }
    ensures { Begun file.now contents.now ceiling figures (kept_in result) }
{
    let mut table = [0; tables::LONGEST];
    let shape = decoding::decode(file, &mut table).unwrap();
    Watcher {
        copy: copy_of(file),
        table,
        sizes: [
            file.len() as u64,
            shape.rows as u64,
            u64::from(shape.types),
            figures.per_progress,
            figures.per_doubling,
        ],
        states: [0; 16],
        contents: widened(contents),
        counts: [ceiling, 0, 0],
    }
}

impl Watcher {
    // The most progress rows that a watcher accepts,
    pub const PROGRESS_ROWS: u64 = 1_000_000;

    // and the most doublings.
    pub const DOUBLINGS: u64 = 1_000_000;

    // Opens on a plant file, weights and contents, all machines in state 0, with quoting's checks.
    pub fn open(file: &[u8], weights: &[u16], contents: &[u32]) -> Opened
        ensures { Opens file.now weights.now contents.now (answer_of result.answer) (kept_in result.watcher) }
    {
        match quoting::quote(file, weights, contents, 0, 0) {
            Err(fault) => Opened {
                watcher: unopened(),
                answer: Err(fault),
            },
            Ok(quoted) => Opened {
                watcher: begun(file, contents, quoted.ceiling, figures_for(file, weights)),
                answer: Ok(quoted.ceiling),
            },
        }
    }
}
