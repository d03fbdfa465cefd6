// The C interface: the six calls, with answers as structs, and its version. include/hemtaluq.h declares them for C and C++. The exports of the watcher
// are those of `panel`.
// The name of a call carries its revision. A call whose struct or arguments change, or the form of a list that it takes, gets the next one, so that
// an object compiled with an old header finds no symbol and does not link.
#![tactic(auto)]

ghost use Rattle.std.specs.Prelude.{◌≡◌, ◌↔◌, length};
ghost use Rattle.plant.specs.Reading.{read_plant};
ghost use Rattle.reading.specs.Answers as ReadingAnswers;
ghost use Rattle.weight_checks.specs.Checks as WeightChecks;
ghost use Rattle.quoting.specs.Quoting as Quoting;
ghost use Rattle.listing.specs.Listing as Listing;
ghost use Rattle.cycle_sets.specs.Confirming.{owed, ReadsBalanced};
ghost use Rattle.plant_lists.specs.Lists.{listed_plant};
ghost use Rattle.writing.specs.Writing.{answer_for, buffer_for};
ghost use Rattle.answer_structs.specs.Structs.{read_struct, list_struct, confirm_struct, write_struct, WeighedAs, QuotedAs, Lists, Writes};
ghost use Rattle.cabinet.specs.Versions.{interface_version};

use answer_structs::{
    ConfirmAnswer, ListAnswer, QuoteAnswer, ReadAnswer, WeighAnswer, WriteAnswer,
};

const VERSION: u32 = 7;

// The version of this library's interface. This export has no revision: what it means never changes.
#[unsafe(no_mangle)]
pub extern "C" fn hemtaluq_version() -> u32
    ensures { result ≡ interface_version }
{
    VERSION
}

#[unsafe(no_mangle)]
pub extern "C" fn hemtaluq_read_v1(file: &[u8]) -> ReadAnswer
    ensures { result ≡ read_struct (ReadingAnswers.counts_of (read_plant file.now)) }
{
    let answer = reading::read(file);
    ReadAnswer::from(answer)
}

#[unsafe(no_mangle)]
pub extern "C" fn hemtaluq_weigh_v2(file: &[u8], weights: &[u16], cycle: &mut [u16]) -> WeighAnswer
    ensures { WeighedAs weights.now cycle.old cycle.new result (WeightChecks.judged file.now weights.now (length cycle.old)) }
{
    let answer = weighing::weigh(file, weights, cycle);
    WeighAnswer::from(answer)
}

#[unsafe(no_mangle)]
pub extern "C" fn hemtaluq_quote_v2(
    file: &[u8],
    weights: &[u16],
    contents: &[u32],
    g: u32,
    d: u32,
) -> QuoteAnswer
    ensures { QuotedAs weights.now contents.now g d result (Quoting.judged file.now weights.now contents.now g d) }
{
    let answer = quoting::quote(file, weights, contents, g, d);
    QuoteAnswer::from(answer)
}

#[unsafe(no_mangle)]
pub extern "C" fn hemtaluq_list_v1(file: &[u8], machine: u32, out: &mut [u16]) -> ListAnswer
    ensures value { result ≡ list_struct (Listing.answered (Listing.judged file.now machine (length out.old))) }
    ensures out_after { out.new ≡ Listing.filled (Listing.judged file.now machine (length out.old)) out.old }
    ensures lists { Lists file.now machine result out.new }
{
    let answer = listing::list(file, machine, out);
    ListAnswer::from(answer)
}

#[unsafe(no_mangle)]
pub extern "C" fn hemtaluq_confirm_v1(file: &[u8], set: &[u32]) -> ConfirmAnswer
    ensures value { result ≡ confirm_struct (owed (read_plant file.now) set.now) }
    ensures variant { (result.kind ≡ 6) ↔ ReadsBalanced file.now set.now }
{
    let answer = cycle_sets::confirm(file, set);
    ConfirmAnswer::from(answer)
}

#[unsafe(no_mangle)]
pub extern "C" fn hemtaluq_write_v2(numbers: &[u16], out: &mut [u8]) -> WriteAnswer
    ensures value { result ≡ write_struct (answer_for (listed_plant numbers.now) (length out.old)) }
    ensures out_after { out.new ≡ buffer_for (listed_plant numbers.now) out.old }
    ensures writes { Writes numbers.now result out.new }
{
    let answer = writing::write(numbers, out);
    WriteAnswer::from(answer)
}
