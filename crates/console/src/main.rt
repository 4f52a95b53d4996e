// The console: one line in, one line out (docs/CONSOLE.md). A line is one of the calls that C and Rust link. It reads standard input to its
// end in pieces, answers each line where it stands, and writes all answers that it has before it waits for more input.
#![tactic(auto)]

mod lines;
mod text;
mod words;

ghost use Rattle.std.specs.Prelude.{◌≤◌};

use lines::Desk;
use std::io;
use std::io::Read;
use text::Answers;
use words::{Fault, Words};

// The longest line that is taken, its end not counted.
const LONGEST: usize = 16384;

// As much is kept of a line whose end has not come: a line that has filled it is too long, whatever comes behind it.
const KEPT: usize = 16386;

// The input that has come and is not answered yet.
#[derive(Drop)]
struct Input {
    room: [u8; 81920],
    filled: usize,
    ghost inside: { filled ≤ 81920 },
}

impl Input {
    fn new() -> Input {
        Input {
            room: [0; 81920],
            filled: 0,
        }
    }

    // Reads once, behind the bytes that are there; whether the input is at its end. What is left is then its last line.
    fn read_on(&mut self, from: &mut impl Read) -> io::Result<bool> {
        let got = from.read(&mut self.room[self.filled..])?;
        self.filled += got;
        if got == 0 {
            self.end_line();
        }
        Ok(got == 0)
    }

    // The end that the last line lacks. A carriage return belongs to it, so that none of the line's own does.
    fn end_line(&mut self) {
        if let Some(end) = self.room.get_mut(self.filled..self.filled + 2) {
            end.copy_from_slice(b"\r\n");
            self.filled += 2;
        }
    }

    fn bytes(&self) -> &[u8] {
        &self.room[..self.filled]
    }

    // Keeps the last so many bytes, those of a line whose end has not come.
    fn keep(&mut self, left: usize) {
        let from = self.filled.saturating_sub(left);
        let end = self.filled.min(from + KEPT);
        self.room.copy_within(from..end, 0);
        self.filled = end - from;
    }
}

fn main(rt: HostRuntime) -> io::Result<()> {
    talk(
        &mut rt.stdin(),
        &rt,
        &mut Input::new(),
        &mut Desk::new(),
        &mut Answers::new(),
    )
}

// Reads until the input ends, and answers the lines that ended in what came. Every loop must be shown to stop, so this one has a limit of reads,
// far above what any input takes. A read or a write that fails ends it.
fn talk(
    from: &mut impl Read,
    to: &impl Print,
    input: &mut Input,
    desk: &mut Desk,
    answers: &mut Answers,
) -> io::Result<()> {
    for _ in 0..u64::MAX {
        let ended = input.read_on(from)?;
        let left = answer_all(to, input.bytes(), desk, answers)?;
        answers.flush(to)?;
        input.keep(left);
        if ended {
            break;
        }
    }
    Ok(())
}

// Answers each line that ends in the input; how many bytes there are of one whose end has not come.
fn answer_all(
    to: &impl Print,
    input: &[u8],
    desk: &mut Desk,
    answers: &mut Answers,
) -> io::Result<usize> {
    for line in input.split_inclusive(|b| *b == b'\n') {
        let Some(whole) = line.strip_suffix(b"\n") else {
            return Ok(line.len());
        };
        answer(whole.strip_suffix(b"\r").unwrap_or(whole), desk, answers);
        answers.spare(to)?;
    }
    Ok(0)
}

fn answer(line: &[u8], desk: &mut Desk, answers: &mut Answers) {
    if LONGEST < line.len() {
        answers.put_fault(Fault::LineTooLong);
        return;
    }
    if is_passed_over(line) {
        return;
    }
    match lines::answer_to(&mut Words::of(line), desk) {
        Ok(answer) => answers.put_answer(&answer, desk),
        Err(fault) => answers.put_fault(fault),
    }
}

// A line with no word, or whose first word begins with `#`, answers nothing.
fn is_passed_over(line: &[u8]) -> bool {
    match Words::of(line).next_word() {
        None | Some([b'#', ..]) => true,
        Some(_) => false,
    }
}
