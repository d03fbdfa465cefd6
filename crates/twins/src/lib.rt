// Twin rows: whether a row is equal to an earlier row of its machine. Of each row of the machine a key is kept, which is one number, and of all of
// them the states that they leave, as the bits of another. No entry point: `reading`, `decoding` and `written_rows` call it.
#![tactic(auto)]

ghost use Rattle.std.specs.Prelude.{◌≡◌, List, [], ℕ, ◌&&◌, ◌*◌, ◌^◌, ◌%◌, ◌<◌, ◌≤◌, length, eqb};
ghost use Rattle.std.specs.Option.{ForSome};
ghost use Rattle.std.specs.Int.Bits.{bit_or};
ghost use Rattle.livelock.specs.Plants.{Row};
ghost use Rattle.plant.specs.Limits.{rows_in};
ghost use Rattle.plant_rows.specs.Rows.{fields_row};
ghost use Rattle.twins.specs.Keys.{type_number, key_of, is_in, state_bit, RowKept};

use arrayvec::ArrayVec;
use plant::{Fault, Refusal};
use plant_rows::RowFields;

// A machine has at most so many rows,
pub const MOST_ROWS: usize = 255;

// and a file of at most so many bytes has no more than these, so that it needs no long list of keys, which has to be cleared.
pub const FEW_ROWS: usize = 32;

// What is kept of the rows of a machine that were read: their keys, and the states that they leave, as bits.
#[derive(Drop)]
pub struct Keys<const N: usize> {
    keys: ArrayVec<u32, N>,
    states: u64,
}

// The number of a type, or 64.
fn type_number(kind: Option<u8>) -> u32
    requires { ForSome kind (λ t. t < 64) }
    ensures { (result ≡ type_number kind) × (result ≤ 64) }
{
    u32::from(kind.unwrap_or(64))
}

// The key of a row, whatever its machine: below 2 ^ 31.
fn key_of(row: RowFields) -> u32
    ensures { result ≡ key_of (fields_row 0 row) }
{
    let sent = type_number(row.sent);
    let taken = type_number(row.taken);
    let message = sent + 128 * (taken + 128 * u32::from(row.progress));
    u32::from(row.left) + 256 * (u32::from(row.entered) + 256 * message)
}

// Whether one of these keys is this one. The loop has no way out before its end, so that it is compiled to compare several keys at a time.
fn is_in(keys: &[u32], key: u32) -> bool
    ensures { result ≡ is_in key keys.now }
{
    let mut seen = false;
    for kept in keys {
        seen = seen | (*kept == key);
    }
    seen
}

// The same, where each of these keys is of a row that leaves a state whose bit stands: the keys are looked at only if the bit of this state stands.
fn is_kept(keys: &[u32], states: u64, state: u8, key: u32) -> bool
    ensures { result ≡ eqb (state_bit states state) 1 && is_in key keys.now }
{
    if (states >> (state % 64)) % 2 == 1 {
        return is_in(keys, key);
    }
    false
}

// The states with one more.
fn with_state(states: u64, state: u8) -> u64
    ensures { result ≡ bit_or states (1 * 2 ^ (state % 64)) }
{
    states | (1 << (state % 64))
}

// Keeps the key of a row behind those of the `n` rows of its machine before it, in a lent list, and hands back the states that all these rows leave; a twin
// of one of them is not kept, and there are none. For `written_rows`, where the count and the states of `Keys` would stay in memory.
pub fn keep_row(keys: &mut [u32], n: usize, states: u64, row: RowFields) -> Option<u64>
    requires { n < length keys.old }
    ensures { RowKept n row states keys.old keys.new result }
{
    let key = key_of(row);
    if is_kept(&keys[..n], states, row.left, key) {
        return None;
    }
    keys[n] = key;
    Some(with_state(states, row.left))
}

impl<const N: usize> Keys<N> {
    ghost use Rattle.twins.specs.Kept.{kept_count, RowsKept, RowKept as Kept};

    // Before the first row of a machine nothing is kept.
    pub fn new() -> Self
        ensures none { kept_count result ≡ 0 }
        ensures no_state { result.states ≡ 0 }
        ensures kept { (m : ℕ) (rows : List Row) → rows_in m rows ≡ [] → RowsKept m rows result }
    {
        Keys {
            keys: ArrayVec::new(),
            states: 0,
        }
    }

    // For the rows of the next machine: nothing is kept of those of this one.
    pub fn clear(&mut self)
        ensures none { kept_count self.new ≡ 0 }
        ensures no_state { self.new.states ≡ 0 }
        ensures kept { (m : ℕ) (rows : List Row) → rows_in m rows ≡ [] → RowsKept m rows self.new }
    {
        self.keys.clear();
        self.states = 0;
    }

    // Keeps a row, which begins at `place`, with those of its machine before it; a twin of one of them is refused.
    pub fn keep(&mut self, row: RowFields, place: usize) -> Result<(), Fault>
        requires { kept_count self.old < N }
        ensures { Kept row place self.old self.new result }
    {
        let key = key_of(row);
        if is_kept(self.keys.as_slice(), self.states, row.left, key) {
            return Err(Fault {
                refusal: Refusal::TwinRow,
                place,
            });
        }
        self.keys.push(key);
        self.states = with_state(self.states, row.left);
        Ok(())
    }
}
