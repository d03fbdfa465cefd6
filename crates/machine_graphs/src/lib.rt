// The graph of a machine's rows, made from a table. These functions have the only indices by which a graph is changed. No entry point:
// `listing` calls it.
#![tactic(auto)]

ghost use Rattle.std.specs.Prelude.{◌≤◌, ◌<◌};
ghost use Rattle.graphs.specs.Graphs.{between_of, pair};
ghost use Rattle.machine_graphs.specs.Graphs.{Listable, NoRows, NoRowsOfStates, Graphed};
ghost use Rattle.machine_graphs.specs.Inner.Rows.{RowAdded};

use graphs::Graph;

#[cfg(test)]
mod tests;

// A graph without rows.
pub fn without_rows(last: usize) -> Graph
    requires { last ≤ 1024 }
    ensures { NoRows last result }
{
    let end = last as u16;
    Graph {
        left: [0; 64],
        entered: [0; 64],
        next: [0; 64],
        head: [end; 24],
        last: end,
        into: [0; 32],
        between: [[0; 32]; 24],
    }
}

// Adds row k before the rows of a graph.
fn add_row(graph: &mut Graph, k: usize, left: u8, entered: u8)
    requires { (k < 1024) × (left < 24) × (entered < 24) × (pair (between_of graph.old) left entered ≤ 1024) }
    ensures { RowAdded k left entered graph.old graph.new }
{
    let at = k % 64;
    let s = usize::from(left);
    let t = usize::from(entered);
    graph.left[at] = left;
    graph.entered[at] = entered;
    graph.next[at] = graph.head[s];
    graph.head[s] = k as u16;
    graph.into[t] = state_marks::with_left(graph.into_of(t), left);
    graph.between[s][t] += 1;
}

// Adds the rows from `first` up to, and not including, `last` to a graph without rows between its states; from the last row to the first, as
// `add_row` puts each before those that are there.
pub fn add_rows(table: &[u8], first: usize, last: usize, graph: &mut Graph)
    requires { Listable table.now first last × NoRowsOfStates last graph.old }
    ensures { Graphed table.now first last graph.new }
{
    for k in (first..last).rev() {
        let row = tables::row_in(table, k).fields;
        add_row(graph, k, row.left, row.entered);
    }
}
