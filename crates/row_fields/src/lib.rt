// The fields of a row: its map byte, and a byte for each state and type whose bit stands. No entry point: `plant_rows` calls it.
#![tactic(auto)]

ghost use Rattle.std.specs.Prelude.{◌≡◌, ◌<◌};
ghost use Rattle.plant.specs.Reading.{has_bit, map_byte, state_field, type_field};
ghost use Rattle.plant.specs.Steps.{field_found};
ghost use Rattle.row_fields.specs.Fields.{type_found};

use plant::{Fault, Field, Refusal, byte_in};

// Whether the bit of this value stands in a map byte.
pub fn has_bit(map: u8, value: u8) -> bool
    requires { 0 < value }
    ensures { result ≡ has_bit map value }
{
    map / value % 2 == 1
}

// A row's map byte.
pub fn map_byte(s: &[u8], at: usize) -> Result<Field<u8>, Fault>
    ensures { field_found result ≡ map_byte s.now at }
{
    byte_in(s, at, 0, 32, Refusal::MapByte)
}

// A state field, or the state that stands for it.
pub fn state_field(
    s: &[u8],
    at: usize,
    stands: bool,
    absent: u8,
    states: u8,
) -> Result<Field<u8>, Fault>
    ensures { field_found result ≡ state_field stands absent states s.now at }
{
    if stands {
        byte_in(s, at, 0, states, Refusal::NotAState)
    } else {
        Ok(Field {
            value: absent,
            next: at,
        })
    }
}

// A type field, or no type.
pub fn type_field(s: &[u8], at: usize, stands: bool, types: u8) -> Result<Field<Option<u8>>, Fault>
    ensures { type_found result ≡ type_field stands types s.now at }
{
    if stands {
        let byte = byte_in(s, at, 0, types, Refusal::NotAType)?;
        Ok(Field {
            value: Some(byte.value),
            next: byte.next,
        })
    } else {
        Ok(Field {
            value: None,
            next: at,
        })
    }
}
