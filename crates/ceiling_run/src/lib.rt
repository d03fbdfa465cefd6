// The work of the program `ceiling`: reads its two files by name and prints one line. Each stored run is a program whose main calls it.
#![tactic(auto)]

ghost use Rattle.std.specs.Prelude.{◌≡◌, ◌≤◌, ◌<◌, length, take, IsErr};
ghost use Rattle.io.specs.Counts.{IsPrefixLen};
ghost use Rattle.plant.specs.Limits.{longest_file};
ghost use Rattle.answer_line.specs.Files.{PrintedOf};

use std::fs::File;
use std::io::Read;
use std::rt::Files;

// Reads until the buffer is full, the file ends or a read fails, and hands back how many bytes it put at the start of the buffer.
fn read_full(file: &mut impl Read, buf: &mut [u8]) -> usize
    ensures { IsPrefixLen result buf.new }
{
    let mut done = 0;
    while done < buf.len() {
        match file.read(&mut buf[done..]) {
            Ok(0) => break,
            Ok(n) => done += n,
            Err(_) => break,
        }
    }
    done
}

// The bytes of an opened file, as far as the buffer holds them; none of a file that could not be opened.
fn read_opened<F: Read + Drop>(opened: std::io::Result<F>, buf: &mut [u8]) -> usize
    ensures { IsPrefixLen result buf.new × (IsErr opened → result ≡ 0) }
{
    match opened {
        Ok(mut file) => read_full(&mut file, buf),
        Err(_) => 0,
    }
}

// The bytes of a file by its name, as far as the buffer holds them; none where it cannot be opened.
fn read_named(rt: &impl Files, path: &str, buf: &mut [u8]) -> usize
    ensures { IsPrefixLen result buf.new }
{
    let opened = File::open(rt, path);
    read_opened(opened, buf)
}

// A buffer with the bytes of a file at its start: all of them, or as many as the buffer holds.
#[derive(Clone, Copy)]
struct Held<'a> {
    buffer: &'a [u8],
    count: usize,
    ghost at_start: { IsPrefixLen count buffer.now },
}

impl Held<'_> {
    // The bytes of the file.
    fn bytes(&self) -> &[u8]
        ensures { result.now ≡ take self.now.count self.now.buffer.now }
    {
        &self.buffer[..self.count]
    }
}

// Writes a line to standard output, and says on standard error where that was not possible: the program has no exit status of its own.
// Only the line that is owed for the two files may be handed over: for every two files of which the bytes held are the whole, or as much as
// the buffers hold.
fn write_owed<R: Print + Eprint>(rt: &R, plant: Held, weights: Held, line: &[u8])
    requires { PrintedOf plant.buffer.now plant.count weights.buffer.now weights.count line.now }
{
    if rt.write_all(line).is_err() {
        let _ = rt.eprintln("ceiling: the line could not be written to standard output");
    }
}

// Prints the line for the two files. A plant has at most `longest_file` bytes and its weights at most 128:
// longer files are refused by what the buffers hold of them, if that is one byte more than a plant has, and two more than its weights.
fn print_line<R: Print + Eprint>(rt: &R, plant: Held, weights: Held)
    requires { (longest_file < length plant.buffer.now) × (130 ≤ length weights.buffer.now) }
{
    let mut line = [0u8; 512];
    let end = answer_line::write_line(plant.bytes(), weights.bytes(), &mut line);
    write_owed(rt, plant, weights, &line[..end]);
}

// Reads plant.bin and weights.bin, and prints the line.
pub fn run<R: Files + Print + Eprint>(rt: &R) {
    let mut plant = io::large_buffer();
    let n = read_named(rt, "plant.bin", &mut plant);
    let mut weights = io::buffer();
    let m = read_named(rt, "weights.bin", &mut weights);
    let plant = Held {
        buffer: &plant,
        count: n,
    };
    let weights = Held {
        buffer: &weights,
        count: m,
    };
    print_line(rt, plant, weights);
}
