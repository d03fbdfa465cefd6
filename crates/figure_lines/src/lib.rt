// A line of a word and decimal figures, written to a lent list. No entry point: `answer_line` calls it.
#![tactic(auto)]

ghost use Rattle.std.specs.Prelude.{◌≡◌, ◌+◌, ◌≤◌, length};
ghost use Rattle.figure_lines.specs.FigureLines.{figure, figures, line_with};
ghost use Rattle.figure_lines.specs.Writing.{Wrote, ShortLine, WroteLine};

// A lent list, written up to a place.
#[derive(Drop)]
struct Line<'a> {
    bytes: &'a mut [u8],
    end: usize,
}

impl Line<'_> {
    // Writes bytes from the place on; the place is then the one after them.
    fn write(&mut self, bytes: &[u8])
        requires { self.old.end + length bytes.now ≤ length self.old.bytes.now }
        ensures same_list { self.new.bytes.ghost_name ≡ self.old.bytes.ghost_name }
        ensures wrote { Wrote self.old.bytes.now self.new.bytes.now self.old.end self.new.end bytes.now }
    {
        let end = self.end + bytes.len();
        self.bytes[self.end..end].copy_from_slice(bytes);
        self.end = end;
    }

    // Writes a space and a number.
    fn write_figure(&mut self, n: u64)
        requires { self.old.end + length (figure n) ≤ length self.old.bytes.now }
        ensures same_list { self.new.bytes.ghost_name ≡ self.old.bytes.ghost_name }
        ensures wrote { Wrote self.old.bytes.now self.new.bytes.now self.old.end self.new.end (figure n) }
    {
        let mut digits = itoa::Buffer::new();
        self.write(b" ");
        self.write(digits.format(n).as_bytes());
    }

    // Writes the figures of the numbers.
    fn write_figures(&mut self, numbers: &[u64])
        requires { self.old.end + length (figures numbers.now) ≤ length self.old.bytes.now }
        ensures same_list { self.new.bytes.ghost_name ≡ self.old.bytes.ghost_name }
        ensures wrote { Wrote self.old.bytes.now self.new.bytes.now self.old.end self.new.end (figures numbers.now) }
    {
        for number in numbers {
            self.write_figure(*number);
        }
    }
}

// Writes the line of a word and figures, from the start, and hands back the place after it.
pub fn write_line_with(word: &[u8], numbers: &[u64], line: &mut [u8]) -> usize
    requires { ShortLine word.now numbers.now × (512 ≤ length line.old) }
    ensures { WroteLine line.old line.new result (line_with word.now numbers.now) }
{
    let mut line = Line {
        bytes: line,
        end: 0,
    };
    line.write(word);
    line.write_figures(numbers);
    line.write(b"\n");
    line.end
}
