// The quiet rows of one machine, copied into a lent list of edges, which deciding and searching are lent in turn. No entry point: `machines` calls it.
#![tactic(auto)]

ghost use Rattle.std.specs.Prelude.{◌≡◌, ◌-◌, ◌≤◌, length, take};
ghost use Rattle.livelock.specs.Weights.{message_weight};
ghost use Rattle.tables.specs.Tables.{row_of, RoomFor};
ghost use Rattle.edges.specs.Edges.{row_weight, Light, Listed};

use edge_lists::Edge;
use std::ops::Range;
use tables::TableRow;

// The weight of a message: 0 for none.
fn message_weight(message: Option<u8>, weights: &[u16]) -> u16
    ensures { result ≡ message_weight weights.now message }
{
    message.map_or(
        0,
        |kind| weights.get(usize::from(kind)).copied().unwrap_or(0),
    )
}

// What a row sends less what it takes.
fn row_weight(row: TableRow, weights: &[u16]) -> i64
    ensures { result ≡ row_weight weights.now (row_of row) }
{
    let up = message_weight(row.fields.sent, weights);
    let down = message_weight(row.fields.taken, weights);
    i64::from(up) - i64::from(down)
}

// Lists the quiet ones of these rows at the front of the list, and hands back how many they are. Each row is stored; only a quiet one is counted, so that the
// next takes its place otherwise: to store a row only if it is quiet would cost a branch.
pub fn edges_of(table: &[u8], rows: Range<usize>, weights: &[u16], edges: &mut [Edge]) -> usize
    requires { RoomFor rows.end table.now × (rows.end ≤ 1024) × (rows.start ≤ rows.end) × (rows.end - rows.start ≤ length edges.old) × Light weights.now }
    ensures listed { Listed table.now weights.now rows.start rows.end (take result edges.new) }
    ensures within { result ≤ length edges.new }
{
    let mut count = 0;
    for k in rows.start..rows.end {
        let row = tables::row_in(table, k);
        let weight = row_weight(row, weights);
        edges[count] = Edge {
            from: row.fields.left,
            to: row.fields.entered,
            weight: weight as i16,
            row: k as u16,
        };
        count += usize::from(!row.fields.progress);
    }
    count
}
