// The answers of the calls as structs of the C interface, and their conversions. No entry point: `cabinet` calls them.
#![tactic(auto)]

ghost use Rattle.std.specs.Prelude.{◌≡◌};
ghost use Rattle.reading.specs.Answers as ReadingAnswers;
ghost use Rattle.weighing.specs.Answers as WeighingAnswers;
ghost use Rattle.quoting.specs.Answers as QuotingAnswers;
ghost use Rattle.listing.specs.Answers as ListingAnswers;
ghost use Rattle.cycle_sets.specs.Answers as ConfirmingAnswers;
ghost use Rattle.writing.specs.Answers as WritingAnswers;
ghost use Rattle.answer_structs.specs.Structs.{read_struct, weigh_struct, quote_struct, list_struct, confirm_struct, write_struct};

use cycle_sets::Confirmation;
use plant::Fault;
use quoting::Quoted;
use reading::Counts;
use weighing::Weighed;

// kind 1: the counts; kind 0: a refusal with its number and place.
#[repr(C)]
#[derive(Clone, Copy, Debug, PartialEq, Eq)]
pub struct ReadAnswer {
    pub kind: u8,
    pub number: u8,
    pub types: u8,
    pub place: usize,
    pub machines: usize,
    pub rows: usize,
}

// kind 2: F, n, G and n × w; kind 3: the count of the rows shown; kind 0: a refusal.
#[repr(C)]
#[derive(Clone, Copy, Debug, PartialEq, Eq)]
pub struct WeighAnswer {
    pub kind: u8,
    pub number: u8,
    pub place: usize,
    pub base: u64,
    pub most_states: u64,
    pub per_progress: u64,
    pub per_doubling: u64,
    pub rows: usize,
}

// kind 4: the ceiling and its price class; kind 0: a refusal.
#[repr(C)]
#[derive(Clone, Copy, Debug, PartialEq, Eq)]
pub struct QuoteAnswer {
    pub kind: u8,
    pub number: u8,
    pub price_class: u32,
    pub place: usize,
    pub ceiling: u64,
}

// kind 5: the entries used; kind 0: a refusal.
#[repr(C)]
#[derive(Clone, Copy, Debug, PartialEq, Eq)]
pub struct ListAnswer {
    pub kind: u8,
    pub number: u8,
    pub place: usize,
    pub entries: usize,
}

// kind 6: confirmed; kind 7: the lowest type with a negative sum, and that sum; kind 0: a refusal.
#[repr(C)]
#[derive(Clone, Copy, Debug, PartialEq, Eq)]
pub struct ConfirmAnswer {
    pub kind: u8,
    pub number: u8,
    pub place: usize,
    pub message_type: usize,
    pub sum: i64,
}

// kind 8: the length of the file; kind 0: a refusal.
#[repr(C)]
#[derive(Clone, Copy, Debug, PartialEq, Eq)]
pub struct WriteAnswer {
    pub kind: u8,
    pub number: u8,
    pub place: usize,
    pub length: usize,
}

impl From<Result<Counts, Fault>> for ReadAnswer {
    ghost from_gives = { λ answer made. made ≡ read_struct (ReadingAnswers.answer_of answer) };

    // The struct of an answer of `read`.
    fn from(answer: Result<Counts, Fault>) -> ReadAnswer {
        match answer {
            Ok(counts) => ReadAnswer {
                kind: 1,
                number: 0,
                types: counts.types,
                place: 0,
                machines: counts.machines,
                rows: counts.rows,
            },
            Err(fault) => ReadAnswer {
                kind: 0,
                number: fault.number(),
                types: 0,
                place: fault.place,
                machines: 0,
                rows: 0,
            },
        }
    }
}

impl From<Result<Weighed, Fault>> for WeighAnswer {
    ghost from_gives = { λ answer made. made ≡ weigh_struct (WeighingAnswers.answer_of answer) };

    // The struct of an answer of `weigh`.
    fn from(answer: Result<Weighed, Fault>) -> WeighAnswer {
        match answer {
            Ok(Weighed::Passed(figures)) => WeighAnswer {
                kind: 2,
                number: 0,
                place: 0,
                base: figures.base,
                most_states: figures.most_states,
                per_progress: figures.per_progress,
                per_doubling: figures.per_doubling,
                rows: 0,
            },
            Ok(Weighed::Cycle { rows }) => WeighAnswer {
                kind: 3,
                number: 0,
                place: 0,
                base: 0,
                most_states: 0,
                per_progress: 0,
                per_doubling: 0,
                rows,
            },
            Err(fault) => WeighAnswer {
                kind: 0,
                number: fault.number(),
                place: fault.place,
                base: 0,
                most_states: 0,
                per_progress: 0,
                per_doubling: 0,
                rows: 0,
            },
        }
    }
}

impl From<Result<Quoted, Fault>> for QuoteAnswer {
    ghost from_gives = { λ answer made. made ≡ quote_struct (QuotingAnswers.answer_of answer) };

    // The struct of an answer of `quote`.
    fn from(answer: Result<Quoted, Fault>) -> QuoteAnswer {
        match answer {
            Ok(quoted) => QuoteAnswer {
                kind: 4,
                number: 0,
                price_class: quoted.class,
                place: 0,
                ceiling: quoted.ceiling,
            },
            Err(fault) => QuoteAnswer {
                kind: 0,
                number: fault.number(),
                price_class: 0,
                place: fault.place,
                ceiling: 0,
            },
        }
    }
}

impl From<Result<usize, Fault>> for ListAnswer {
    ghost from_gives = { λ answer made. made ≡ list_struct (ListingAnswers.answer_of answer) };

    // The struct of an answer of `list`.
    fn from(answer: Result<usize, Fault>) -> ListAnswer {
        match answer {
            Ok(used) => ListAnswer {
                kind: 5,
                number: 0,
                place: 0,
                entries: used,
            },
            Err(fault) => ListAnswer {
                kind: 0,
                number: fault.number(),
                place: fault.place,
                entries: 0,
            },
        }
    }
}

impl From<Result<Confirmation, Fault>> for ConfirmAnswer {
    ghost from_gives = { λ answer made. made ≡ confirm_struct (ConfirmingAnswers.answer_of answer) };

    // The struct of an answer of `confirm`.
    fn from(answer: Result<Confirmation, Fault>) -> ConfirmAnswer {
        match answer {
            Ok(Confirmation::Confirmed) => ConfirmAnswer {
                kind: 6,
                number: 0,
                place: 0,
                message_type: 0,
                sum: 0,
            },
            Ok(Confirmation::Negative { message, sum }) => ConfirmAnswer {
                kind: 7,
                number: 0,
                place: 0,
                message_type: message,
                sum,
            },
            Err(fault) => ConfirmAnswer {
                kind: 0,
                number: fault.number(),
                place: fault.place,
                message_type: 0,
                sum: 0,
            },
        }
    }
}

impl From<Result<usize, Fault>> for WriteAnswer {
    ghost from_gives = { λ answer made. made ≡ write_struct (WritingAnswers.answer_of answer) };

    // The struct of an answer of `write`.
    fn from(answer: Result<usize, Fault>) -> WriteAnswer {
        match answer {
            Ok(length) => WriteAnswer {
                kind: 8,
                number: 0,
                place: 0,
                length,
            },
            Err(fault) => WriteAnswer {
                kind: 0,
                number: fault.number(),
                place: fault.place,
                length: 0,
            },
        }
    }
}
