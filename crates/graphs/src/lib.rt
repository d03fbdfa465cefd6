// The rows of a machine as a graph: where each row leads, and which rows leave or enter a state.
// No entry point: the crates that search a graph know the contracts of these methods, and have no index into it; `machine_graphs`
// makes a graph.
#![tactic(auto)]

ghost use Rattle.std.specs.Prelude.{◌≡◌, ◌<◌, get_or};
ghost use Rattle.graphs.specs.Graphs.{left_of, entered_of, next_of, head_of, into_of, between_of, pair, last_of};

// The rows of a machine as a graph. Of row k, only k % 64 tells the place.
#[derive(Clone, Copy, Debug, PartialEq, Eq)]
pub struct Graph {
    // The state that each row leaves, the state it enters, and the next row that leaves the same state.
    pub left: [u8; 64],
    pub entered: [u8; 64],
    pub next: [u16; 64],
    // The first row that leaves each state.
    pub head: [u16; 24],
    // The number after the last row; it stands wherever there is no row.
    pub last: u16,
    // For each state, the states with a row to it as bits.
    pub into: [u32; 32],
    // For each state, the number of rows to each state.
    pub between: [[u16; 32]; 24],
}

impl Graph {
    // The state that row k leaves.
    pub fn left_of(&self, k: usize) -> u8
        requires { k < 1024 }
        ensures { result ≡ get_or (left_of self.now) k 0 }
    {
        self.left[k % 64]
    }

    // The state that row k enters.
    pub fn entered_of(&self, k: usize) -> u8
        requires { k < 1024 }
        ensures { result ≡ get_or (entered_of self.now) k 0 }
    {
        self.entered[k % 64]
    }

    // The next row after row k that leaves the same state.
    pub fn next_of(&self, k: usize) -> usize
        requires { k < 1024 }
        ensures { result ≡ get_or (next_of self.now) k 0 }
    {
        usize::from(self.next[k % 64])
    }

    // The first row that leaves a state.
    pub fn head_of(&self, state: u8) -> usize
        requires { state < 24 }
        ensures { result ≡ get_or (head_of self.now) state 0 }
    {
        usize::from(self.head[usize::from(state)])
    }

    // The states with a row to a state: their bits stand.
    pub fn into_of(&self, state: usize) -> u32
        requires { state < 32 }
        ensures { result ≡ get_or (into_of self.now) state 0 }
    {
        self.into[state]
    }

    // The number of rows from one state to another.
    pub fn between_of(&self, left: u8, entered: u8) -> usize
        requires { (left < 24) × (entered < 24) }
        ensures { result ≡ pair (between_of self.now) left entered }
    {
        usize::from(self.between[usize::from(left)][usize::from(entered)])
    }

    // The number after the last row.
    pub fn last_of(&self) -> usize
        ensures { result ≡ last_of self.now }
    {
        usize::from(self.last)
    }
}
