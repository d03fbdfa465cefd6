// The place of a fault of a part, in the whole file, and whether the file ends after its last row. No entry point: `decoding` calls it.
#![tactic(auto)]

ghost use Rattle.std.specs.Prelude.{◌≡◌, ◌+◌, ◌^◌, ◌<◌, Err};
ghost use Rattle.livelock.specs.Plants.{Plant};
ghost use Rattle.plant.specs.Checks.{check_found};
ghost use Rattle.plant.specs.Found.{moved_by};
ghost use Rattle.plant.specs.Reading.{file_end};
ghost use Rattle.plant.specs.Steps.{end_found};

use plant::{Fault, Refusal};

// The fault of a part that begins at `base`, with its place in the whole file.
pub fn moved_fault(fault: Fault, base: usize) -> Fault
    requires { base + fault.place < 2 ^ 64 }
    ensures { (p : Plant) → end_found (Err result) p ≡ moved_by base (end_found (Err fault) p) }
{
    Fault {
        refusal: fault.refusal,
        place: base + fault.place,
    }
}

// Where the last row ends, the file ends.
pub fn ends_at(file: &[u8], end: usize) -> Result<(), Fault>
    ensures { (p : Plant) → check_found result p end ≡ file_end file.now p end }
{
    if end < file.len() {
        return Err(Fault {
            refusal: Refusal::BytesRemain,
            place: end,
        });
    }
    Ok(())
}
