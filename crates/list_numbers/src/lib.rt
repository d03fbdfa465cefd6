// The numbers of a list that says a plant, judged one by one: a number within its range, and a count of rows. No entry point: `writing` calls it; the
// numbers of a row are judged together, by `row_numbers`.
#![tactic(auto)]

ghost use Rattle.std.specs.Prelude.{◌≡◌, ◌-◌, ◌≤◌, min};
ghost use Rattle.plant.specs.Steps.{field_found};
ghost use Rattle.plant_lists.specs.Lists.{number_in, rows_number};

use plant::{Fault, Field, Refusal};

// The number at `at`, at least `low` and below `end`.
pub fn number_in(numbers: &[u16], at: usize, low: u16, end: u16) -> Result<Field<u8>, Fault>
    requires { end ≤ 256 }
    ensures { field_found result ≡ number_in low end numbers.now at }
{
    if numbers.len() <= at {
        return Err(Fault {
            refusal: Refusal::ListLength,
            place: at,
        });
    }
    let number = numbers[at];
    if low <= number && number < end {
        return Ok(Field {
            value: number as u8,
            next: at + 1,
        });
    }
    Err(Fault {
        refusal: Refusal::ListNumber,
        place: at,
    })
}

// Where a machine's count of rows ends, after the rows so far.
fn rows_end(used: usize) -> u16
    requires { used ≤ 1024 }
    ensures { result ≡ min 256 (1025 - used) }
{
    (1025 - used).min(256) as u16
}

// A machine's count of rows, after the rows so far.
pub fn rows_number(numbers: &[u16], at: usize, used: usize) -> Result<Field<u8>, Fault>
    requires { used ≤ 1024 }
    ensures { field_found result ≡ rows_number used numbers.now at }
{
    number_in(numbers, at, 0, rows_end(used))
}
