// Demand 2, "No plant has both", of the two calls themselves: the theorem (specs/ and proofs/), and a function that makes both calls.
#![tactic(auto)]

ghost use Rattle.std.specs.Prelude.{◌≡◌, true, ◌↔◌};
ghost use Rattle.weighing.specs.Answers as Weighing;
ghost use Rattle.cycle_sets.specs.Answers as Confirming;
ghost use Rattle.exclusion.specs.NeverBoth.{Sees};

use cycle_sets::Confirmation;
use plant::Fault;
use weighing::Weighed;

// What the two calls said of one file.
#[derive(Clone, Copy, Debug, PartialEq, Eq)]
pub struct Seen {
    pub passed: bool,
    pub confirmed: bool,
}

// Whether `weigh` handed back figures.
fn is_passed(answer: Result<Weighed, Fault>) -> bool
    ensures { (result ≡ true) ↔ Weighing.HasFigures (Weighing.answer_of answer) }
{
    matches!(answer, Ok(Weighed::Passed(_)))
}

// Whether `confirm` confirmed.
fn is_confirmed(answer: Result<Confirmation, Fault>) -> bool
    ensures { (result ≡ true) ↔ (Confirming.answer_of answer ≡ Confirming.confirmed) }
{
    matches!(answer, Ok(Confirmation::Confirmed))
}

// Weighs a file and confirms a set for it: never does it see both.
pub fn weigh_and_confirm(file: &[u8], weights: &[u16], set: &[u32]) -> Seen
    ensures { Sees file.now weights.now set.now result.passed result.confirmed }
{
    let mut cycle = [0; 64];
    let weighed = weighing::weigh(file, weights, &mut cycle);
    let confirmation = cycle_sets::confirm(file, set);
    Seen {
        passed: is_passed(weighed),
        confirmed: is_confirmed(confirmation),
    }
}
