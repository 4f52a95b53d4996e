// Writing answers into the room that they are gathered in. What does not fit is left out, and the room is larger than any answer.
//
// An answer is a form: its text as docs/CONSOLE.md has it, in which a mark stands for a value that the call left in the row, in the text
// lent to it, or in its own number:
//
//     #     the next number of the row
//     %     the next number of the row, a byte in hex
//     ?     the next two numbers: whether a value is known, and the value; `missing` where it is not
//     ~     the next two numbers: the low and the high 32 bits of one
//     [n]   from here on the numbers from place n on
//     *     a list: as many numbers from there on as the last number written says, a space before each
//     +     the same for bits: a number for each eight of them
//     =     the answer's own number
//     &     the answer's own number, a byte in hex
//     $     as many bytes of the text, in hex; `-` for none
//
// A form stays a text: as a list of an enum's marks each would be several times as long, and read less like its line of docs/CONSOLE.md.
ghost use Rattle.std.specs.Prelude.{◌≤◌};

use crate::lines::{Answer, Desk};
use crate::words::Fault;
use std::io;

const HALF: usize = 32768;

const DIGITS: [u8; 16] = *b"0123456789ABCDEF";

// The answers that are not written yet, in a room of fixed size: there is no heap.
#[derive(Drop)]
pub struct Answers {
    room: [u8; 65536],
    filled: usize,
    ghost inside: { filled ≤ 65536 },
}

// The values that a form shows: the row and the text, the place of the row's next number, a place that is being read, as far as it is, and the last
// number that was written, first of all the answer's own.
#[derive(Drop)]
struct Values<'a> {
    row: &'a [i32],
    text: &'a [u8],
    place: usize,
    read: Option<usize>,
    last: usize,
}

impl<'a> Values<'a> {
    // The next number of the row.
    fn next_number(&mut self) -> i32 {
        let n = self.row.get(self.place).copied().unwrap_or(0);
        self.place = self.place.saturating_add(1);
        n
    }

    // The next number of the row, which says how long a list is.
    fn next_count(&mut self) -> i32 {
        let n = self.next_number();
        self.last = n.cast_unsigned() as usize;
        n
    }

    // The next two numbers of the row: the low and the high 32 bits of one.
    fn next_long(&mut self) -> i64 {
        let [a, b, c, d] = self.next_number().to_le_bytes();
        let [e, f, g, h] = self.next_number().to_le_bytes();
        i64::from_le_bytes([a, b, c, d, e, f, g, h])
    }

    // Goes to a place, by a digit of it or the `]` behind it.
    fn go_on(&mut self, place: usize, c: u8) {
        if c == b']' {
            self.place = place;
            self.read = None;
        } else {
            self.read = Some(place % 100 * 10 + usize::from(c % 16));
        }
    }
}

impl Answers {
    pub fn new() -> Answers {
        Answers {
            room: [0; 65536],
            filled: 0,
        }
    }

    // Writes them.
    pub fn flush(&mut self, to: &impl Print) -> io::Result<()> {
        to.write_all(&self.room[..self.filled])?;
        self.filled = 0;
        Ok(())
    }

    // Writes them where less than half of the room is left for the next one.
    pub fn spare(&mut self, to: &impl Print) -> io::Result<()> {
        if HALF <= self.filled {
            self.flush(to)?;
        }
        Ok(())
    }

    // The answer of a line that is no call.
    pub fn put_fault(&mut self, fault: Fault) {
        self.put_text(fault.text());
        self.put(b'\n');
    }

    // The answer of a call, by the form of its kind. Kind 0 is a refusal.
    pub fn put_answer(&mut self, answer: &Answer, desk: &Desk) {
        let mut values = Values {
            row: &desk.row,
            text: &desk.text,
            place: 0,
            read: None,
            last: answer.number(),
        };
        for c in answer.form().bytes() {
            self.put_mark(c, &mut values);
        }
        self.put(b'\n');
    }

    // The next byte of a form.
    fn put_mark(&mut self, c: u8, values: &mut Values) {
        if let Some(place) = values.read {
            values.go_on(place, c);
            return;
        }
        match c {
            b'[' => values.read = Some(0),
            b'#' => self.put_number(values.next_count()),
            b'%' => self.put_byte(values.next_number().to_le_bytes()[0]),
            b'?' => self.put_known(values),
            b'~' => self.put_number(values.next_long()),
            b'*' => self.put_list(values, values.last),
            b'+' => self.put_list(values, values.last.div_ceil(8)),
            b'=' => self.put_number(values.last),
            b'&' => self.put_byte(values.last.to_le_bytes()[0]),
            b'$' => self.put_string(values.text, values.last),
            _ => self.put(c),
        }
    }

    fn put_known(&mut self, values: &mut Values) {
        let known = values.next_number();
        let n = values.next_number();
        if known == 0 {
            self.put_text("missing");
        } else {
            self.put_number(n);
        }
    }

    // So many numbers from the next one on, a space before each. They stay to be read.
    fn put_list(&mut self, values: &Values, n: usize) {
        for x in values.row.iter().skip(values.place).take(n) {
            self.put(b' ');
            self.put_number(*x);
        }
    }

    // The first n bytes of the text, `-` for none.
    fn put_string(&mut self, text: &[u8], n: usize) {
        if n == 0 {
            self.put(b'-');
        }
        for b in text.iter().take(n) {
            self.put_byte(*b);
        }
    }

    fn put_number(&mut self, n: impl itoa::Integer) {
        let mut digits = itoa::Buffer::new();
        self.put_text(digits.format(n));
    }

    // A byte as two upper-case hex digits.
    fn put_byte(&mut self, b: u8) {
        self.put(DIGITS[usize::from(b / 16)]);
        self.put(DIGITS[usize::from(b % 16)]);
    }

    fn put_text(&mut self, text: &str) {
        let left = &mut self.room[self.filled..];
        let n = text.len().min(left.len());
        left[..n].copy_from_slice(&text.as_bytes()[..n]);
        self.filled += n;
    }

    fn put(&mut self, b: u8) {
        if self.filled < self.room.len() {
            self.room[self.filled] = b;
            self.filled += 1;
        }
    }
}
