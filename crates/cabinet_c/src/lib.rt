// The static library of `cabinet`, for C: its exports under the same names, each with the same clauses, and each made by the call of `cabinet`.
#![tactic(auto)]

ghost use Rattle.std.specs.Prelude.{◌≡◌, ◌↔◌, length};
ghost use Rattle.plant.specs.Reading.{read_plant};
ghost use Rattle.reading.specs.Answers as ReadingAnswers;
ghost use Rattle.weight_checks.specs.Checks as WeightChecks;
ghost use Rattle.quoting.specs.Quoting as Quoting;
ghost use Rattle.listing.specs.Listing as Listing;
ghost use Rattle.cycle_sets.specs.Confirming.{owed, ReadsBalanced};
ghost use Rattle.plant_lists.specs.Lists.{listed_plant};
ghost use Rattle.writing.specs.Writing.{answer_for, buffer_for};
ghost use Rattle.answer_structs.specs.Structs.{read_struct, list_struct, confirm_struct, write_struct, WeighedAs, QuotedAs, Lists, Writes};
ghost use Rattle.cabinet.specs.Versions.{interface_version};

use answer_structs::{
    ConfirmAnswer, ListAnswer, QuoteAnswer, ReadAnswer, WeighAnswer, WriteAnswer,
};

#[unsafe(no_mangle)]
pub extern "C" fn hemtaluq_version() -> u32
    ensures { result ≡ interface_version }
{
    cabinet::hemtaluq_version()
}

#[unsafe(no_mangle)]
pub extern "C" fn hemtaluq_read_v1(file: &[u8]) -> ReadAnswer
    ensures { result ≡ read_struct (ReadingAnswers.counts_of (read_plant file.now)) }
{
    cabinet::hemtaluq_read_v1(file)
}

#[unsafe(no_mangle)]
pub extern "C" fn hemtaluq_weigh_v2(file: &[u8], weights: &[u16], cycle: &mut [u16]) -> WeighAnswer
    ensures { WeighedAs weights.now cycle.old cycle.new result (WeightChecks.judged file.now weights.now (length cycle.old)) }
{
    cabinet::hemtaluq_weigh_v2(file, weights, cycle)
}

#[unsafe(no_mangle)]
pub extern "C" fn hemtaluq_quote_v2(
    file: &[u8],
    weights: &[u16],
    contents: &[u32],
    g: u32,
    d: u32,
) -> QuoteAnswer
    ensures { QuotedAs weights.now contents.now g d result (Quoting.judged file.now weights.now contents.now g d) }
{
    cabinet::hemtaluq_quote_v2(file, weights, contents, g, d)
}

#[unsafe(no_mangle)]
pub extern "C" fn hemtaluq_list_v1(file: &[u8], machine: u32, out: &mut [u16]) -> ListAnswer
    ensures value { result ≡ list_struct (Listing.answered (Listing.judged file.now machine (length out.old))) }
    ensures out_after { out.new ≡ Listing.filled (Listing.judged file.now machine (length out.old)) out.old }
    ensures lists { Lists file.now machine result out.new }
{
    cabinet::hemtaluq_list_v1(file, machine, out)
}

#[unsafe(no_mangle)]
pub extern "C" fn hemtaluq_confirm_v1(file: &[u8], set: &[u32]) -> ConfirmAnswer
    ensures value { result ≡ confirm_struct (owed (read_plant file.now) set.now) }
    ensures variant { (result.kind ≡ 6) ↔ ReadsBalanced file.now set.now }
{
    cabinet::hemtaluq_confirm_v1(file, set)
}

#[unsafe(no_mangle)]
pub extern "C" fn hemtaluq_write_v2(numbers: &[u16], out: &mut [u8]) -> WriteAnswer
    ensures value { result ≡ write_struct (answer_for (listed_plant numbers.now) (length out.old)) }
    ensures out_after { out.new ≡ buffer_for (listed_plant numbers.now) out.old }
    ensures writes { Writes numbers.now result out.new }
{
    cabinet::hemtaluq_write_v2(numbers, out)
}
