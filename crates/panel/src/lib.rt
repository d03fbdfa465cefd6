// The C interface of the watcher: opening, and one event a call, over the lists that the caller lends. `cabinet` has the other exports, and the
// rule of revisions. include/hemtaluq.h has the lists as one struct, and a function on it for each export.
#![tactic(auto)]

ghost use Rattle.std.specs.Prelude.{◌≡◌};
ghost use Rattle.livelock.specs.Runs as Runs;
ghost use Rattle.watched_runs.specs.Answers.{answer_of};
ghost use Rattle.watched_runs.specs.Owed.{Opens, LentSteps, LentMessageSteps};
ghost use Rattle.panel.specs.Structs.{watch_struct, lent, WatchedAs};

use plant::Fault;
use watchers::{Opened, Watcher};

// kind 9: the quiet rows left; kind 0: a refusal.
#[repr(C)]
#[derive(Clone, Copy, Debug, PartialEq, Eq)]
pub struct WatchAnswer {
    pub kind: u8,
    pub number: u8,
    pub place: usize,
    pub left: u64,
}

impl From<Result<u64, Fault>> for WatchAnswer {
    ghost from_gives = { λ answer struct. struct ≡ watch_struct (answer_of answer) };

    fn from(answer: Result<u64, Fault>) -> WatchAnswer {
        match answer {
            Ok(left) => WatchAnswer {
                kind: 9,
                number: 0,
                place: 0,
                left,
            },
            Err(fault) => WatchAnswer {
                kind: 0,
                number: fault.number(),
                place: fault.place,
                left: 0,
            },
        }
    }
}

#[unsafe(no_mangle)]
pub extern "C" fn hemtaluq_watch_open_v1(
    copy: &mut [u8; 8192],
    table: &mut [u8; 8192],
    sizes: &mut [u64; 5],
    states: &mut [u8; 16],
    contents: &mut [u64; 64],
    counts: &mut [u64; 3],
    file: &[u8],
    weights: &[u16],
    opening: &[u32],
) -> WatchAnswer
    ensures { WatchedAs (λ a. Opens file.now weights.now opening.now a (lent copy.new table.new sizes.new states.new contents.new counts.new)) result }
{
    let Opened { watcher, answer } = Watcher::open(file, weights, opening);
    let Watcher {
        copy: copied,
        table: rows,
        sizes: fixed,
        states: stopped,
        contents: messages,
        counts: counted,
    } = watcher;
    *copy = copied;
    *table = rows;
    *sizes = fixed;
    *states = stopped;
    *contents = messages;
    *counts = counted;
    answer.into()
}

#[unsafe(no_mangle)]
pub extern "C" fn hemtaluq_watch_row_v1(
    table: &[u8; 8192],
    sizes: &[u64; 5],
    states: &mut [u8; 16],
    contents: &mut [u64; 64],
    counts: &mut [u64; 3],
    row: u32,
) -> WatchAnswer
    ensures { WatchedAs (λ a. LentSteps table.now sizes.now states.old contents.old counts.old (Runs.row row) a states.new contents.new counts.new) result }
{
    watch_events::take_row(table, sizes, states, contents, counts, row).into()
}

#[unsafe(no_mangle)]
pub extern "C" fn hemtaluq_watch_loss_v1(
    sizes: &[u64; 5],
    contents: &mut [u64; 64],
    counts: &[u64; 3],
    message_type: u32,
) -> WatchAnswer
    ensures { WatchedAs (λ a. LentMessageSteps sizes.now contents.old counts.now (Runs.loss message_type) a contents.new counts.now) result }
{
    watch_events::take_loss(sizes, contents, counts, message_type).into()
}

#[unsafe(no_mangle)]
pub extern "C" fn hemtaluq_watch_doubling_v1(
    sizes: &[u64; 5],
    contents: &mut [u64; 64],
    counts: &mut [u64; 3],
    message_type: u32,
) -> WatchAnswer
    ensures { WatchedAs (λ a. LentMessageSteps sizes.now contents.old counts.old (Runs.doubling message_type) a contents.new counts.new) result }
{
    watch_events::take_doubling(sizes, contents, counts, message_type).into()
}
