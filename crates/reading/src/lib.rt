// The call that only reads: the counts of a plant file, or its first fault. No row is stored; of the rows of a machine their keys are kept, so
// that a twin is found.
#![tactic(auto)]

ghost use Rattle.std.specs.Prelude.{◌≡◌, []};
ghost use Rattle.plant.specs.Reading.{read_plant};
ghost use Rattle.reading.specs.Answers.{answer_of, counts_of};

use decoding::RowStore;
use plant::Fault;
use plant_rows::RowFields;

// The answer of the call that only reads: the counts of a plant file.
#[derive(Clone, Copy, Debug, PartialEq, Eq)]
pub struct Counts {
    pub machines: usize,
    pub types: u8,
    pub rows: usize,
}

// A store that keeps no rows, and has room for all of them.
#[derive(Drop)]
struct NoRows;

impl RowStore for NoRows {
    ghost Holds = { λ s rows. Unit {0} };

    ghost room = { λ s. 1024 };

    ghost lent = { λ s. [] };

    fn store_row(&mut self, _k: usize, _machine: u8, _row: RowFields) {}
}

// The counts of machines, types and rows of a plant file, or the first fault.
pub fn read(file: &[u8]) -> Result<Counts, Fault>
    ensures { answer_of result ≡ counts_of (read_plant file.now) }
{
    let shape = decoding::read_into(file, &mut NoRows)?;
    Ok(Counts {
        machines: shape.machines,
        types: shape.types,
        rows: shape.rows,
    })
}
