// The figures F, n, G and n × w of demand 3. No entry point: `weighing` calls it.
#![tactic(auto)]

ghost use Rattle.std.specs.Prelude.{◌≡◌, ◌-◌, ◌≤◌, length, get_or};
ghost use Rattle.livelock.specs.Lists.{below, sum, greatest};
ghost use Rattle.figures.specs.FigureSums.{FiguresOf, SomeStates};

// F, n, G and n × w.
#[derive(Clone, Copy, Debug, Default, Eq, PartialEq)]
pub struct Figures {
    pub base: u64,
    pub most_states: u64,
    pub per_progress: u64,
    pub per_doubling: u64,
}

// n, the most states in one machine.
fn most_states(states: &[u8]) -> u64
    ensures { result ≡ greatest (λ m. get_or states.now m 0) (below (length states.now)) }
{
    u64::from(states.iter().copied().max().unwrap_or(0))
}

// S, the sum of each machine's states less one.
fn states_less_one(states: &[u8]) -> u64
    requires { length states.now ≤ 16 }
    ensures { result ≡ sum (λ m. get_or states.now m 0 - 1) (below (length states.now)) }
{
    states
        .iter()
        .map(|count| u64::from(count.saturating_sub(1)))
        .sum()
}

// w, the largest weight; 0 with no types.
fn largest_weight(weights: &[u16]) -> u64
    ensures { result ≡ greatest (λ t. get_or weights.now t 0) (below (length weights.now)) }
{
    u64::from(weights.iter().copied().max().unwrap_or(0))
}

// F, n, G and n × w of a plant with these counts of states and these weights.
pub fn figures_of(states: &[u8], weights: &[u16]) -> Figures
    requires { (1 ≤ length states.now) × (length states.now ≤ 16) × SomeStates states.now }
    ensures { FiguresOf states.now weights.now result }
{
    let n = most_states(states);
    let less = states_less_one(states);
    let w = largest_weight(weights);
    let per_doubling = n * w;
    Figures {
        base: less + per_doubling * less,
        most_states: n,
        per_progress: (n - 1) + n * n * w,
        per_doubling,
    }
}
