// The format of the plant file: its bytes and counts. Each byte is judged when it is read, and the first fault met decides. No entry point:
// `row_fields`, `reading` and `decoding` call it.
#![tactic(auto)]

ghost use Rattle.std.specs.Prelude.{◌≡◌, ◌≤◌};
ghost use Rattle.plant.specs.Reading.{byte_at, byte_in, count_byte, rows_byte};
ghost use Rattle.plant.specs.Refusals.{number_of};
ghost use Rattle.plant.specs.Steps.{field_found};

use std::fmt;

// The refusals of document 01's table and of document 02, with their numbers. Nothing is refused with 19, "unused": it stands here so that a
// number follows from a refusal's position, where a gap makes the compiler put a table of numbers into the read-only memory of a panel.
#[derive(Clone, Copy, Debug, PartialEq, Eq)]
pub enum Refusal {
    FileEnds = 1,
    CountLimits = 2,
    StateLimits = 3,
    MapByte = 4,
    NotAState = 5,
    NotAType = 6,
    TotalRows = 7,
    BytesRemain = 8,
    WeightCount = 9,
    WeightLimit = 10,
    CycleRoom = 11,
    NoMachine = 12,
    MachineSize = 13,
    ListingRoom = 14,
    SetEnds = 15,
    SetNumber = 16,
    NotQuietCycle = 17,
    SetEntries = 18,
    Unused = 19,
    ContentCount = 20,
    AmountLimit = 21,
    NotPassing = 22,
    ListLength = 23,
    ListNumber = 24,
    OutputRoom = 25,
    TwinRow = 26,
    RowImpossible = 27,
    MessageAbsent = 28,
    EventLimit = 29,
}

// A refusal, and its place.
#[derive(Clone, Copy, Debug, PartialEq, Eq)]
pub struct Fault {
    pub refusal: Refusal,
    pub place: usize,
}

impl Fault {
    // The refusal's number in the tables of both documents.
    pub fn number(&self) -> u8
        ensures { result ≡ number_of self.now.refusal }
    {
        self.refusal as u8
    }
}

impl fmt::Display for Fault {
    fn fmt<W: fmt::Write>(&self, f: &mut fmt::Formatter<W>) -> fmt::Result {
        write!(f, "refused with {} at {}", self.number(), self.place)
    }
}

// What was read, or what stands for it, and the offset after it.
#[derive(Clone, Copy)]
pub struct Field<T> {
    pub value: T,
    pub next: usize,
}

// The byte at `at`, if the file has it.
pub fn byte_at(s: &[u8], at: usize) -> Result<Field<u8>, Fault>
    ensures { field_found result ≡ byte_at s.now at }
{
    if s.len() <= at {
        return Err(Fault {
            refusal: Refusal::FileEnds,
            place: s.len(),
        });
    }
    Ok(Field {
        value: s[at],
        next: at + 1,
    })
}

// The byte at `at`, at least `low` and below `end`. A byte and its fault are handed back by different returns: as two arms of one
// expression they were compiled into one computation of both offsets, which then waited for the value of the byte.
pub fn byte_in(s: &[u8], at: usize, low: u8, end: u8, refusal: Refusal) -> Result<Field<u8>, Fault>
    ensures { field_found result ≡ byte_in low end (number_of refusal) s.now at }
{
    let byte = byte_at(s, at)?;
    if low <= byte.value && byte.value < end {
        return Ok(byte);
    }
    Err(Fault { refusal, place: at })
}

// The count of machines.
pub fn machines_byte(s: &[u8], at: usize) -> Result<Field<u8>, Fault>
    ensures { field_found result ≡ count_byte 1 16 2 s.now at }
{
    byte_in(s, at, 1, 17, Refusal::CountLimits)
}

// The count of types.
pub fn types_byte(s: &[u8], at: usize) -> Result<Field<u8>, Fault>
    ensures { field_found result ≡ count_byte 0 64 2 s.now at }
{
    byte_in(s, at, 0, 65, Refusal::CountLimits)
}

// A machine's count of states.
pub fn states_byte(s: &[u8], at: usize) -> Result<Field<u8>, Fault>
    ensures { field_found result ≡ count_byte 1 64 3 s.now at }
{
    byte_in(s, at, 1, 65, Refusal::StateLimits)
}

// A machine's count of rows, after the rows so far.
pub fn rows_byte(s: &[u8], at: usize, used: usize) -> Result<Field<u8>, Fault>
    requires { used ≤ 1024 }
    ensures { field_found result ≡ rows_byte used s.now at }
{
    let count = byte_at(s, at)?;
    if used + usize::from(count.value) <= 1024 {
        return Ok(count);
    }
    Err(Fault {
        refusal: Refusal::TotalRows,
        place: at,
    })
}
