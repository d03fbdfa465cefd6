use super::{add_rows, without_rows};

// What stands for a pair with a state behind the 24 is no row, and stays.
#[test]
fn rows_beside_pairs_behind_the_states() -> Result<(), &'static str> {
    let table: [u8; 16] = [0, 2, 3, 64, 64, 0, 0, 0, 0, 3, 2, 64, 64, 1, 0, 0];
    let mut graph = without_rows(2);
    graph.between[2][24] = 7;
    add_rows(&table, 0, 2, &mut graph);
    let heads = [graph.head_of(2), graph.head_of(3)] == [0, 1];
    let entered = [graph.entered_of(0), graph.entered_of(1)] == [3, 2];
    let sources = [graph.into_of(2), graph.into_of(3)] == [8, 4];
    let between = [graph.between_of(2, 3), graph.between_of(3, 2)] == [1, 1];
    if heads && entered && sources && between && graph.between[2][24] == 7 {
        Ok(())
    } else {
        Err("the graph has other rows")
    }
}
