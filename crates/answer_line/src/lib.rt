// The line of the program `ceiling`: an answer of weighing, written as a line. No entry point: `ceiling_run` calls it.
#![tactic(auto)]

ghost use Rattle.std.specs.Prelude.{◌*◌, ◌≤◌, ◌≡◌, length, take};
ghost use Rattle.figure_lines.specs.FigureLines.{figures};
ghost use Rattle.figure_lines.specs.Writing.{WroteLine};
ghost use Rattle.figures.specs.FigureSums.{figures_in};
ghost use Rattle.plant.specs.Refusals.{number_of};
ghost use Rattle.weighing.specs.Answers.{answer_of};
ghost use Rattle.answer_line.specs.Lines.{passed_line, cycle_line, refused_line, line_of};
ghost use Rattle.answer_line.specs.Files.{Printed};
ghost use Rattle.answer_line.specs.Inner.Steps.{FewRows};

use arrayvec::ArrayVec;
use figures::Figures;
use plant::Fault;
use weighing::Weighed;

// The rows of a cycle as numbers, whose figures have at most six bytes each.
fn widened(rows: &[u16]) -> ArrayVec<u64, 64>
    requires { length rows.now ≤ 64 }
    ensures { (result.items ≡ rows.now) × (length (figures rows.now) ≤ 6 * length rows.now) }
{
    let mut numbers = ArrayVec::new();
    for row in rows {
        numbers.push(u64::from(*row));
    }
    numbers
}

// The line of figures.
fn write_passed(figures: Figures, line: &mut [u8]) -> usize
    requires { 512 ≤ length line.old }
    ensures { WroteLine line.old line.new result (passed_line (figures_in figures)) }
{
    let numbers = [
        figures.base,
        figures.most_states,
        figures.per_progress,
        figures.per_doubling,
    ];
    figure_lines::write_line_with(b"passed", &numbers, line)
}

// The line of the rows of a cycle.
fn write_cycle(rows: &[u16], line: &mut [u8]) -> usize
    requires { (length rows.now ≤ 64) × (512 ≤ length line.old) }
    ensures { WroteLine line.old line.new result (cycle_line rows.now) }
{
    let numbers = widened(rows);
    figure_lines::write_line_with(b"cycle", numbers.as_slice(), line)
}

// The line of a refusal.
fn write_refused(fault: Fault, line: &mut [u8]) -> usize
    requires { 512 ≤ length line.old }
    ensures { WroteLine line.old line.new result (refused_line (number_of fault.refusal) fault.place) }
{
    let number = u64::from(fault.number());
    let place = fault.place as u64;
    figure_lines::write_line_with(b"refused", &[number, place], line)
}

// The line of an answer and of the list after weighing.
fn write_answer(answer: Result<Weighed, Fault>, cycle: &[u16; 64], line: &mut [u8]) -> usize
    requires { FewRows (answer_of answer) × (512 ≤ length line.old) }
    ensures { WroteLine line.old line.new result (line_of (answer_of answer) cycle.now) }
{
    match answer {
        Ok(Weighed::Passed(figures)) => write_passed(figures, line),
        Ok(Weighed::Cycle { rows }) => write_cycle(&cycle[..rows], line),
        Err(fault) => write_refused(fault, line),
    }
}

// The line of the program for the bytes of its two files.
pub fn write_line(plant: &[u8], weights: &[u8], line: &mut [u8]) -> usize
    requires { 512 ≤ length line.old }
    ensures { Printed plant.now weights.now (take result line.new) × (result ≤ 512) }
{
    let given = weight_files::weights_from(weights);
    let mut cycle = [0; 64];
    let answer = weighing::weigh(plant, given.as_slice(), &mut cycle);
    write_answer(answer, &cycle, line)
}
