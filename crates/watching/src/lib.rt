// The panel watcher: how many quiet rows are left. One event a call, on a watcher that `Watcher::open` handed back and that calls since have changed.
#![tactic(auto)]

ghost use Rattle.watched_runs.specs.Answers.{answer_of};
ghost use Rattle.watched_runs.specs.Owed.{Steps};
ghost use Rattle.watchers.specs.Watchers.{kept_in};
ghost use Rattle.watching.specs.Events.{event_of};

use plant::Fault;
use std::fmt;
use watchers::Watcher;

// What can happen on a plant: a row, by its number; or a message is lost, or delivered twice, by its type.
#[derive(Clone, Copy, Debug, PartialEq, Eq)]
pub enum Event {
    Row(u32),
    Loss(u32),
    Doubling(u32),
}

impl fmt::Display for Event {
    fn fmt<W: fmt::Write>(&self, f: &mut fmt::Formatter<W>) -> fmt::Result {
        match self {
            Event::Row(k) => write!(f, "row {k}"),
            Event::Loss(t) => write!(f, "loss {t}"),
            Event::Doubling(t) => write!(f, "doubling {t}"),
        }
    }
}

// An event happens to a watcher, or is refused: a row with 27 or 29, a loss with 28, and a doubling with 28 or 29.
pub fn take(watcher: &mut Watcher, event: Event) -> Result<u64, Fault>
    ensures { Steps (kept_in watcher.old) (event_of event) (answer_of result) (kept_in watcher.new) }
{
    match event {
        Event::Row(k) => watch_events::take_row(
            &watcher.table,
            &watcher.sizes,
            &mut watcher.states,
            &mut watcher.contents,
            &mut watcher.counts,
            k,
        ),
        Event::Loss(t) => {
            watch_events::take_loss(&watcher.sizes, &mut watcher.contents, &watcher.counts, t)
        }
        Event::Doubling(t) => watch_events::take_doubling(
            &watcher.sizes,
            &mut watcher.contents,
            &mut watcher.counts,
            t,
        ),
    }
}
