// The static library of `panel`, for C: its exports under the same names, each with the same clauses, and each made by the call of `panel`.
#![tactic(auto)]

ghost use Rattle.livelock.specs.Runs as Runs;
ghost use Rattle.watched_runs.specs.Owed.{Opens, LentSteps, LentMessageSteps};
ghost use Rattle.panel.specs.Structs.{lent, WatchedAs};

use panel::WatchAnswer;

#[unsafe(no_mangle)]
pub extern "C" fn hemtaluq_watch_open_v1(
    copy: &mut [u8; 8192],
    table: &mut [u8; 8192],
    sizes: &mut [u64; 5],
    states: &mut [u8; 16],
    contents: &mut [u64; 64],
    counts: &mut [u64; 3],
    file: &[u8],
    weights: &[u16],
    opening: &[u32],
) -> WatchAnswer
    ensures { WatchedAs (λ a. Opens file.now weights.now opening.now a (lent copy.new table.new sizes.new states.new contents.new counts.new)) result }
{
    panel::hemtaluq_watch_open_v1(
        copy, table, sizes, states, contents, counts, file, weights, opening,
    )
}

#[unsafe(no_mangle)]
pub extern "C" fn hemtaluq_watch_row_v1(
    table: &[u8; 8192],
    sizes: &[u64; 5],
    states: &mut [u8; 16],
    contents: &mut [u64; 64],
    counts: &mut [u64; 3],
    row: u32,
) -> WatchAnswer
    ensures { WatchedAs (λ a. LentSteps table.now sizes.now states.old contents.old counts.old (Runs.row row) a states.new contents.new counts.new) result }
{
    panel::hemtaluq_watch_row_v1(table, sizes, states, contents, counts, row)
}

#[unsafe(no_mangle)]
pub extern "C" fn hemtaluq_watch_loss_v1(
    sizes: &[u64; 5],
    contents: &mut [u64; 64],
    counts: &[u64; 3],
    message_type: u32,
) -> WatchAnswer
    ensures { WatchedAs (λ a. LentMessageSteps sizes.now contents.old counts.now (Runs.loss message_type) a contents.new counts.now) result }
{
    panel::hemtaluq_watch_loss_v1(sizes, contents, counts, message_type)
}

#[unsafe(no_mangle)]
pub extern "C" fn hemtaluq_watch_doubling_v1(
    sizes: &[u64; 5],
    contents: &mut [u64; 64],
    counts: &mut [u64; 3],
    message_type: u32,
) -> WatchAnswer
    ensures { WatchedAs (λ a. LentMessageSteps sizes.now contents.old counts.old (Runs.doubling message_type) a contents.new counts.new) result }
{
    panel::hemtaluq_watch_doubling_v1(sizes, contents, counts, message_type)
}
