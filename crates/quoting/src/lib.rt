// Quoting ceilings and price classes.
#![tactic(auto)]

ghost use Rattle.std.specs.Prelude.{◌≤◌, length, IfSome};
ghost use Rattle.figures.specs.FigureSums.{figures_in};
ghost use Rattle.contents.specs.Contents.{AllAtMost};
ghost use Rattle.quoting.specs.Answers.{quoted_answer, answer_of};
ghost use Rattle.quoting.specs.Quoting.{judged, Owed};
ghost use Rattle.quoting.specs.Inner.Pricing.{Priced, FiguresFit, OwedPassing};

use contents::Amounts;
use figures::Figures;
use plant::Fault;

// The ceiling and its price class.
#[derive(Clone, Copy, Debug, PartialEq, Eq)]
pub struct Quoted {
    pub ceiling: u64,
    pub class: u32,
}

// The ceiling F + n × W + G × g + n × w × d with its price class.
fn price(figures: Figures, weight: u64, g: u64, d: u64) -> Quoted
    requires { FiguresFit (figures_in figures) × (weight ≤ 64000000000) × (g ≤ 1000000) × (d ≤ 1000000) }
    ensures { Priced (figures_in figures) weight g d (quoted_answer result) }
{
    let n = figures.most_states;
    let ceiling = figures.base + n * weight + figures.per_progress * g + figures.per_doubling * d;
    Quoted {
        ceiling,
        class: price_classes::price_class(ceiling),
    }
}

// Checks the contents, g and d, and quotes. Only weights that pass have figures.
fn quote_weighed(passing: Option<Figures>, weights: &[u16], given: Amounts) -> Result<Quoted, Fault>
    requires { IfSome passing (λ f. FiguresFit (figures_in f)) × (length weights.now ≤ 64) × AllAtMost 1000 weights.now }
    ensures { OwedPassing passing weights.now given.entry.contents.now given.entry.g given.entry.d (answer_of result) }
{
    let figures = contents::check_numbers(weights.len(), given, passing)?;
    let weight = contents::contents_weight(weights, given.contents);
    Ok(price(figures, weight, u64::from(given.g), u64::from(given.d)))
}

// The ceiling and the price class for the plant of a file.
pub fn quote(
    file: &[u8],
    weights: &[u16],
    contents: &[u32],
    g: u32,
    d: u32,
) -> Result<Quoted, Fault>
    ensures { Owed weights.now contents.now g d (answer_of result) (judged file.now weights.now contents.now g d) }
{
    let passing = weighing::judge(file, weights)?;
    quote_weighed(passing, weights, Amounts { contents, g, d })
}
