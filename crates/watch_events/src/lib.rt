// The events of a watcher, over the lists that it lends. No entry point for Rattle: `watching` calls it, and `panel`, the C interface.
#![tactic(auto)]

ghost use Rattle.std.specs.Prelude.{◌≡◌};
ghost use Rattle.livelock.specs.Runs as Runs;
ghost use Rattle.watched_runs.specs.Answers.{answer_of};
ghost use Rattle.watched_runs.specs.Owed.{LentSteps, LentMessageSteps};
ghost use Rattle.watched_runs.specs.Inner.Counts.{row_held, message_held};
ghost use Rattle.watched_runs.specs.Keeping.{per_progress_in};
ghost use Rattle.watch_events.specs.Counting.{place_of, added_by, CountedUpTo, RowCounted};

use plant::{Fault, Refusal};
use watchers::Watcher;

// The places of the sizes,
const ROWS: usize = 1;

const TYPES: usize = 2;

const PER_PROGRESS: usize = 3;

const PER_DOUBLING: usize = 4;

// and of the counts.
const LEFT: usize = 0;

const PROGRESS: usize = 1;

const DOUBLINGS: usize = 2;

// The refusals of an event, each at place 0.
const ROW_IMPOSSIBLE: Fault = Fault {
    refusal: Refusal::RowImpossible,
    place: 0,
};

const MESSAGE_ABSENT: Fault = Fault {
    refusal: Refusal::MessageAbsent,
    place: 0,
};

const EVENT_LIMIT: Fault = Fault {
    refusal: Refusal::EventLimit,
    place: 0,
};

// An event that is counted, and adds to what is left.
#[derive(Clone, Copy)]
enum Counted {
    ProgressRow,
    Doubling,
}

impl Counted {
    // The place of its count,
    fn place(self) -> usize
        ensures { result ≡ place_of self }
    {
        match self {
            Counted::ProgressRow => PROGRESS,
            Counted::Doubling => DOUBLINGS,
        }
    }

    // the most of its sort that a watcher accepts,
    fn most(self) -> u64
        ensures { result ≡ 1000000 }
    {
        match self {
            Counted::ProgressRow => Watcher::PROGRESS_ROWS,
            Counted::Doubling => Watcher::DOUBLINGS,
        }
    }

    // and how much it adds.
    fn adds(self, sizes: &[u64; 5]) -> u64
        ensures { result ≡ added_by self sizes.now }
    {
        match self {
            Counted::ProgressRow => sizes[PER_PROGRESS],
            Counted::Doubling => sizes[PER_DOUBLING],
        }
    }
}

// Whether there is such a row.
fn has_row(sizes: &[u64; 5], k: u32) -> bool
    ensures { result ≡ row_held sizes.now k }
{
    u64::from(k) < sizes[ROWS] && (k as usize) < tables::PLANT_ROWS
}

// Whether there is a message of such a type.
fn has_message(sizes: &[u64; 5], contents: &[u64; 64], t: u32) -> bool
    ensures { result ≡ message_held sizes.now contents.now t }
{
    u64::from(t) < sizes[TYPES] && contents.get(t as usize).is_some_and(|count| *count > 0)
}

// Counts an event, which adds to what is left, unless there were as many of its sort as there may be.
fn count_event(counts: &mut [u64; 3], event: Counted, sizes: &[u64; 5]) -> Result<(), Fault>
    ensures { CountedUpTo (place_of event) 1000000 (added_by event sizes.now) counts.old counts.new result }
{
    let at = event.place();
    if counts[at] >= event.most() {
        return Err(EVENT_LIMIT);
    }
    counts[at] += 1;
    counts[LEFT] = counts[LEFT].saturating_add(event.adds(sizes));
    Ok(())
}

// Counts a row: a quiet one takes one away from what is left, and a progress row adds to it, unless there were as many as there may be.
fn count_row(counts: &mut [u64; 3], progress: bool, sizes: &[u64; 5]) -> Result<(), Fault>
    ensures { RowCounted progress (per_progress_in sizes.now) counts.old counts.new result }
{
    if progress {
        return count_event(counts, Counted::ProgressRow, sizes);
    }
    counts[LEFT] = counts[LEFT].saturating_sub(1);
    Ok(())
}

// Row k happens, or is refused with 27 or 29.
pub fn take_row(
    table: &[u8; tables::LONGEST],
    sizes: &[u64; 5],
    states: &mut [u8; 16],
    contents: &mut [u64; 64],
    counts: &mut [u64; 3],
    k: u32,
) -> Result<u64, Fault>
    ensures { LentSteps table.now sizes.now states.old contents.old counts.old (Runs.row k) (answer_of result) states.new contents.new counts.new }
{
    if !has_row(sizes, k) {
        return Err(ROW_IMPOSSIBLE);
    }
    let row = tables::row_in(table, k as usize);
    if !configurations::row_can(row, states, contents) {
        return Err(ROW_IMPOSSIBLE);
    }
    count_row(counts, row.fields.progress, sizes)?;
    configurations::move_row(row, states, contents);
    Ok(counts[LEFT])
}

// One message of a type is lost, or the loss is refused with 28.
pub fn take_loss(
    sizes: &[u64; 5],
    contents: &mut [u64; 64],
    counts: &[u64; 3],
    t: u32,
) -> Result<u64, Fault>
    ensures { LentMessageSteps sizes.now contents.old counts.now (Runs.loss t) (answer_of result) contents.new counts.now }
{
    if !has_message(sizes, contents, t) {
        return Err(MESSAGE_ABSENT);
    }
    configurations::remove(contents, Some(t as u8));
    Ok(counts[LEFT])
}

// One message of a type is delivered twice, or the doubling is refused with 28 or 29.
pub fn take_doubling(
    sizes: &[u64; 5],
    contents: &mut [u64; 64],
    counts: &mut [u64; 3],
    t: u32,
) -> Result<u64, Fault>
    ensures { LentMessageSteps sizes.now contents.old counts.old (Runs.doubling t) (answer_of result) contents.new counts.new }
{
    if !has_message(sizes, contents, t) {
        return Err(MESSAGE_ABSENT);
    }
    count_event(counts, Counted::Doubling, sizes)?;
    configurations::add(contents, Some(t as u8));
    Ok(counts[LEFT])
}
