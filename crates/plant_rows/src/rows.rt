// Reading a row. It stands here since its contract cites definitions that name the struct of a row's fields.
ghost use Rattle.std.specs.Prelude.{◌≡◌, ℕ, ◌≤◌};
ghost use Rattle.plant.specs.Reading.{read_row};
ghost use Rattle.plant_rows.specs.Rows.{row_found};

use super::RowFields;
use plant::{Fault, Field};
use row_fields::{has_bit, map_byte, state_field, type_field};

// The row at `at`.
pub fn row_at(
    s: &[u8],
    at: usize,
    states: u8,
    types: u8,
    implied: u8,
) -> Result<Field<RowFields>, Fault>
    requires { types ≤ 64 }
    ensures { (m : ℕ) → row_found m result ≡ read_row m states types implied s.now at }
{
    let map = map_byte(s, at)?;
    let bits = map.value;
    let left = state_field(s, map.next, has_bit(bits, 1), implied, states)?;
    let entered = state_field(s, left.next, has_bit(bits, 2), left.value, states)?;
    let sent = type_field(s, entered.next, has_bit(bits, 4), types)?;
    let taken = type_field(s, sent.next, has_bit(bits, 8), types)?;
    Ok(Field {
        value: RowFields {
            left: left.value,
            entered: entered.value,
            sent: sent.value,
            taken: taken.value,
            progress: has_bit(bits, 16),
        },
        next: taken.next,
    })
}
