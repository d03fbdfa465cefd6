// A configuration in lent lists, the states of the machines and the messages of each type: one message more or less, whether a row can happen, and
// what it leaves. The lists may hold any numbers: no index leaves them, and nothing wraps. No entry point: `watch_events` calls it.
#![tactic(auto)]

ghost use Rattle.std.specs.Prelude.{◌≡◌, ◌<◌, ◌↔◌, IsTrue};
ghost use Rattle.livelock.specs.Runs.{present};
ghost use Rattle.configurations.specs.Configurations.{state_in, content_in, Removes, Adds, RowCan, RowMoves};

use tables::TableRow;

// One message less of a type, where there is one.
pub fn remove(contents: &mut [u64; 64], message: Option<u8>)
    ensures { Removes message contents.old contents.new }
{
    if let Some(t) = message {
        let at = usize::from(t);
        if at < contents.len() {
            contents[at] = contents[at].saturating_sub(1);
        }
    }
}

// One message more of a type, unless there are as many as 64 bits count.
pub fn add(contents: &mut [u64; 64], message: Option<u8>)
    ensures { Adds message contents.old contents.new }
{
    if let Some(t) = message {
        let at = usize::from(t);
        if at < contents.len() {
            contents[at] = contents[at].saturating_add(1);
        }
    }
}

// Whether a machine is in a state. A machine above the last that a plant can have is in none.
fn is_in(states: &[u8; 16], machine: u8, state: u8) -> bool
    ensures { IsTrue result ↔ (machine < 16) × (state_in states.now machine ≡ state) }
{
    states
        .get(usize::from(machine))
        .is_some_and(|own| *own == state)
}

// Whether a message of a type is there, where one is asked for.
fn is_there(contents: &[u64; 64], message: Option<u8>) -> bool
    ensures { result ≡ present (content_in contents.now) message }
{
    message.is_none_or(|t| contents.get(usize::from(t)).is_some_and(|count| *count > 0))
}

// Whether a row can happen. A row of a machine above the last that a plant can have cannot.
pub fn row_can(row: TableRow, states: &[u8; 16], contents: &[u64; 64]) -> bool
    ensures { RowCan row states.now contents.now result }
{
    is_in(states, row.machine, row.fields.left) && is_there(contents, row.fields.taken)
}

// Moves a row's machine, takes its message and then sends its message.
pub fn move_row(row: TableRow, states: &mut [u8; 16], contents: &mut [u64; 64])
    requires { row.machine < 16 }
    ensures { RowMoves row states.old contents.old states.new contents.new }
{
    states[usize::from(row.machine)] = row.fields.entered;
    remove(contents, row.fields.taken);
    add(contents, row.fields.sent);
}
