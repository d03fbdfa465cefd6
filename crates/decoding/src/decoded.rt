// A file that was decoded, as the calls that work on its plant are handed it.

ghost use Rattle.std.specs.Prelude.{◌≡◌, ◌+◌, ◌-◌, ◌<◌, ◌≤◌};
ghost use Rattle.livelock.specs.Plants.{state_count};
ghost use Rattle.plant.specs.Limits.{rows_of, WithinLimits};
ghost use Rattle.decoding.specs.Tables.{plant_of, rows_before, Ready};
ghost use Rattle.decoding.specs.OneProof.{ready_prop, limits_prop};

use crate::Shape;
use std::ops::Range;

// A table of rows, and what it lacks for a plant: `decode` makes both from a file, and its plant is within the limits of a file's.
#[derive(Clone, Copy)]
pub struct Decoded<'a> {
    pub table: &'a [u8],
    pub shape: Shape,
    pub ghost ready: { Ready shape table.now } by { ready_prop shape table.now },
    pub ghost limits: { WithinLimits (plant_of shape table.now) } by { limits_prop (plant_of shape table.now) },
}

impl Decoded<'_> {
    // The count of states of a machine.
    pub fn states_of(&self, m: usize) -> usize
        requires { m < self.now.shape.machines }
        ensures { result ≡ state_count (plant_of self.now.shape self.now.table.now) m }
    {
        usize::from(self.shape.states[m])
    }

    // The counts of states of all machines.
    pub fn states(&self) -> &[u8]
        ensures { result.now ≡ (plant_of self.now.shape self.now.table.now).states }
    {
        &self.shape.states[..self.shape.machines]
    }

    // The numbers of a machine's rows.
    pub fn rows_of(&self, m: usize) -> Range<usize>
        requires { m < self.now.shape.machines }
        ensures from { result.start ≡ rows_before (plant_of self.now.shape self.now.table.now) m }
        ensures to { result.end ≡ rows_before (plant_of self.now.shape self.now.table.now) (m + 1) }
        ensures in_order { (result.start ≤ result.end) × (result.end ≤ self.now.shape.rows) }
        ensures count { result.end - result.start ≡ rows_of (plant_of self.now.shape self.now.table.now) m }
    {
        usize::from(self.shape.first[m])..usize::from(self.shape.first[m + 1])
    }
}
