// One row of a plant file: its map byte, and then a byte for each field whose bit stands. No entry point: `reading` and `decoding` call it.
#![tactic(auto)]

ghost use Rattle.std.specs.Prelude.{◌<◌};
ghost use Rattle.std.specs.Option.{ForSome};

pub use rows::row_at;

mod rows;

// What a row's bytes say of it, whatever its machine. Its types are below 64, the most types that a plant has.
#[derive(Clone, Copy, Debug, PartialEq, Eq)]
pub struct RowFields {
    pub left: u8,
    pub entered: u8,
    pub sent: Option<u8>,
    pub taken: Option<u8>,
    pub progress: bool,
    ghost types: { ForSome sent (λ t. t < 64) × ForSome taken (λ t. t < 64) },
}
