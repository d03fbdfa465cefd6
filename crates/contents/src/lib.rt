// The contents, g and d: their checks (20, 21 and 22), and the weight W of the contents. No entry point: `quoting` calls it.
#![tactic(auto)]

ghost use Rattle.std.specs.Prelude.{◌≡◌, [], ◌∷◌, ◌≤◌, length, Some, is_some, IfOk};
ghost use Rattle.weight_checks.specs.Checks.{FirstAbove};
ghost use Rattle.contents.specs.Contents.{amounts, AllAtMost, weight_of_contents};
ghost use Rattle.contents.specs.Checks.{Checks, without_value};

use plant::{Fault, Refusal};

// What a ceiling is quoted for: the contents, and g and d, which stand behind them.
#[derive(Clone, Copy)]
pub struct Amounts<'a> {
    pub contents: &'a [u32],
    pub g: u32,
    pub d: u32,
}

// The index of the first number above 1,000,000 among the contents, g and d.
fn first_above(given: Amounts) -> Option<usize>
    requires { length given.contents.now ≤ 64 }
    ensures { FirstAbove 1000000 (amounts given.entry.contents.now (given.entry.g ∷ given.entry.d ∷ [])) result }
{
    let Amounts { contents, g, d } = given;
    if let Some(place) = contents.iter().position(|content| *content > 1000000) {
        return Some(place);
    }
    if g > 1000000 {
        return Some(contents.len());
    }
    if d > 1000000 {
        return Some(contents.len() + 1);
    }
    None
}

// The first of the faults 20, 21 and 22. Weights that pass have something to go on with, and it is handed back.
pub fn check_numbers<T: Copy>(types: usize, given: Amounts, passing: Option<T>) -> Result<T, Fault>
    requires { types ≤ 64 }
    ensures checks { Checks types given.entry.contents.now (given.entry.g ∷ given.entry.d ∷ []) (is_some passing) (without_value result) }
    ensures handed_on { IfOk result (λ value. passing ≡ Some value) }
{
    if given.contents.len() != types {
        return Err(Fault {
            refusal: Refusal::ContentCount,
            place: 0,
        });
    }
    if let Some(place) = first_above(given) {
        return Err(Fault {
            refusal: Refusal::AmountLimit,
            place,
        });
    }
    passing.ok_or(Fault {
        refusal: Refusal::NotPassing,
        place: 0,
    })
}

// W: the sum of weight times content.
pub fn contents_weight(weights: &[u16], contents: &[u32]) -> u64
    requires { (length weights.now ≤ 64) × (length contents.now ≡ length weights.now) × AllAtMost 1000 weights.now × AllAtMost 1000000 contents.now }
    ensures { result ≡ weight_of_contents weights.now contents.now }
{
    weights
        .iter()
        .zip(contents)
        .map(|(weight, content)| u64::from(*weight) * u64::from(*content))
        .sum()
}
