// The checks of the weights (9 and 10) and of the list that is lent for a cycle (11). No entry point: `weighing` calls it.
#![tactic(auto)]

ghost use Rattle.weight_checks.specs.Checks.{WeightsChecked, RoomChecked, WeighingChecked};

use plant::{Fault, Refusal};

// The first of the faults 9 and 10.
pub fn check_weights(types: usize, weights: &[u16]) -> Result<(), Fault>
    ensures { WeightsChecked types weights.now result }
{
    if weights.len() != types {
        return Err(Fault {
            refusal: Refusal::WeightCount,
            place: 0,
        });
    }
    if let Some(place) = weights.iter().position(|weight| *weight > 1000) {
        return Err(Fault {
            refusal: Refusal::WeightLimit,
            place,
        });
    }
    Ok(())
}

// The fault 11, if there is not enough room.
pub fn check_room(room: usize) -> Result<(), Fault>
    ensures { RoomChecked room result }
{
    if room < 64 {
        return Err(Fault {
            refusal: Refusal::CycleRoom,
            place: 0,
        });
    }
    Ok(())
}

// The first of the faults 9, 10 and 11.
pub fn check_weighing(types: usize, weights: &[u16], room: usize) -> Result<(), Fault>
    ensures { WeighingChecked types weights.now room result }
{
    check_weights(types, weights)?;
    check_room(room)
}
