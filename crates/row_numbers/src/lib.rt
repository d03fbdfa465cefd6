// A row of a list that says a plant: its six numbers, judged together, with their fault apart, and the row that they say. No entry point: `written_rows`
// calls it.
#![tactic(auto)]

ghost use Rattle.std.specs.Prelude.{◌≡◌, false, ℕ, ◌+◌, ◌≤◌, ◌<◌, length};
ghost use Rattle.std.specs.Option.{ForSome};
ghost use Rattle.plant.specs.Steps.{fault_found};
ghost use Rattle.plant_rows.specs.Rows.{fields_row, row_found};
ghost use Rattle.plant_lists.specs.Lists.{sent_by, taken_by, types_for, sent_types_for, listed_row};
ghost use Rattle.plant_lists.specs.Inner.Rows.{number_passes, row_passes, row_listed, RowThere, number_fault};

use plant::{Fault, Field, Refusal};
use plant_rows::RowFields;

// Where the fourth number of a row of this kind ends, its type,
fn type_end(kind: u16, types: u8) -> u16
    ensures { result ≡ types_for kind types }
{
    if kind == 0 { 1 } else { u16::from(types) }
}

// and its sixth, the type sent where the fourth is the type taken.
fn sent_end(kind: u16, types: u8) -> u16
    ensures { result ≡ sent_types_for kind types }
{
    if kind == 3 { u16::from(types) } else { 1 }
}

// The type that a row of this kind sends. A kind is tested where it decides: as an enum it would be made in one line and taken apart in the next. Chosen
// without a jump, by `then_some`, the types took `write` 1.1 times as long.
fn type_sent(kind: u16, message: u16, sent: u16) -> Option<u8>
    requires { (message < 64) × (sent < 64) }
    ensures value { result ≡ sent_by kind message sent }
    ensures small { ForSome result (λ t. t < 64) }
{
    match kind {
        1 => Some(message as u8),
        3 => Some(sent as u8),
        _ => None,
    }
}

// The type that it takes.
fn type_taken(kind: u16, message: u16) -> Option<u8>
    requires { message < 64 }
    ensures value { result ≡ taken_by kind message }
    ensures small { ForSome result (λ t. t < 64) }
{
    match kind {
        2 | 3 => Some(message as u8),
        _ => None,
    }
}

// Whether the six numbers of a row all pass. One test of the list's length serves them all.
pub fn row_passes(numbers: &[u16], at: usize, states: u8, types: u8) -> bool
    requires { at ≤ length numbers.now }
    ensures { result ≡ row_passes states types numbers.now at }
{
    if numbers.len() - at < 6 {
        return false;
    }
    let kind = numbers[at + 2];
    numbers[at] < u16::from(states)
        && numbers[at + 1] < u16::from(states)
        && kind < 4
        && numbers[at + 3] < type_end(kind, types)
        && numbers[at + 4] < 2
        && numbers[at + 5] < sent_end(kind, types)
}

// Whether the list has a number at `at`, and it is below `end`.
fn number_passes(numbers: &[u16], at: usize, end: u16) -> bool
    ensures { result ≡ number_passes end numbers.now at }
{
    at < numbers.len() && numbers[at] < end
}

// The first of a row's six numbers that does not pass.
fn first_wrong(numbers: &[u16], at: usize, states: u8, types: u8) -> usize
    requires { (at ≤ length numbers.now) × (row_passes states types numbers.now at ≡ false) }
    ensures { (m : ℕ) → listed_row m states types numbers.now at ≡ number_fault numbers.now result }
{
    let states = u16::from(states);
    if !number_passes(numbers, at, states) {
        return at;
    }
    if !number_passes(numbers, at + 1, states) {
        return at + 1;
    }
    if !number_passes(numbers, at + 2, 4) {
        return at + 2;
    }
    let kind = numbers[at + 2];
    if !number_passes(numbers, at + 3, type_end(kind, types)) {
        return at + 3;
    }
    if !number_passes(numbers, at + 4, 2) {
        return at + 4;
    }
    at + 5
}

// The fault of a row whose numbers do not all pass.
pub fn row_fault(numbers: &[u16], at: usize, states: u8, types: u8) -> Fault
    requires { (at ≤ length numbers.now) × (row_passes states types numbers.now at ≡ false) }
    ensures { (m : ℕ) → listed_row m states types numbers.now at ≡ fault_found result }
{
    let place = first_wrong(numbers, at, states, types);
    let refusal = if place < numbers.len() {
        Refusal::ListNumber
    } else {
        Refusal::ListLength
    };
    Fault { refusal, place }
}

// The row that the six numbers at `at` say, and the index after them.
pub fn listed_row(numbers: &[u16], at: usize) -> Field<RowFields>
    requires { RowThere numbers.now at }
    ensures { ((m : ℕ) → fields_row m result.value ≡ row_listed m numbers.now at) × (result.next ≡ at + 6) }
{
    let kind = numbers[at + 2];
    let message = numbers[at + 3];
    let sent = numbers[at + 5];
    Field {
        value: RowFields {
            left: numbers[at] as u8,
            entered: numbers[at + 1] as u8,
            sent: type_sent(kind, message, sent),
            taken: type_taken(kind, message),
            progress: numbers[at + 4] == 1,
        },
        next: at + 6,
    }
}

// The row at `at`, or its fault. The six numbers are judged together: judged one by one, each with a fault of its own, `write` took 1.2 times as long.
pub fn judged_row(
    numbers: &[u16],
    at: usize,
    states: u8,
    types: u8,
) -> Result<Field<RowFields>, Fault>
    requires { (at ≤ length numbers.now) × (states ≤ 64) × (types ≤ 64) }
    ensures { (m : ℕ) → row_found m result ≡ listed_row m states types numbers.now at }
{
    if row_passes(numbers, at, states, types) {
        return Ok(listed_row(numbers, at));
    }
    Err(row_fault(numbers, at, states, types))
}
