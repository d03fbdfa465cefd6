// Edges, and the list of all edges of a machine beside the number of its states. The weight is signed, so that it is read as it is: the search would take a
// tenth longer if it had to subtract. No entry point: the crates that list edges, decide and search read the fields.
#![tactic(auto)]

ghost use Rattle.edge_lists.specs.EdgeLists.{EdgesIn};

// An edge: the state that it leaves, the state that it enters, its weight, and the number of its row.
#[derive(Clone, Copy, Debug, Default, PartialEq, Eq)]
pub struct Edge {
    pub from: u8,
    pub to: u8,
    pub weight: i16,
    pub row: u16,
}

// All edges of a machine, and how many states it has.
#[derive(Clone, Copy)]
pub struct Edges<'a> {
    pub list: &'a [Edge],
    pub states: usize,
    pub ghost within: { EdgesIn states list.now },
}
