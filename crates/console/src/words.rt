// The words of a line, and the parameters that they spell (docs/CONSOLE.md).

ghost use Rattle.std.specs.Prelude.{◌<◌, IfOk};

use std::cmp::Ordering;
use std::convert::TryFrom;

// Why a line is no call.
#[derive(Clone, Copy, Debug, PartialEq, Eq)]
pub enum Fault {
    LineTooLong,
    UnknownWord,
    TooFewWords,
    TooManyWords,
    NotHex,
    NotANumber,
    OutOfRange,
    NoJob,
}

impl Fault {
    // What the line answers.
    pub fn text(self) -> &'static str {
        match self {
            Fault::LineTooLong => "? line too long",
            Fault::UnknownWord => "? unknown word",
            Fault::TooFewWords => "? too few words",
            Fault::TooManyWords => "? too many words",
            Fault::NotHex => "? not hex",
            Fault::NotANumber => "? not a number",
            Fault::OutOfRange => "? number out of range",
            Fault::NoJob => "? no job",
        }
    }
}

// The words of a line from here on. Each parameter is read in the type that its call takes it in.
#[derive(Clone, Copy)]
pub struct Words<'a> {
    rest: &'a [u8],
}

impl<'a> Words<'a> {
    pub fn of(line: &'a [u8]) -> Words<'a> {
        Words { rest: line }
    }

    // The next word, if there is one.
    pub fn next_word(&mut self) -> Option<&'a [u8]> {
        let start = self.rest.iter().position(|b| *b != b' ')?;
        let (_, words) = self.rest.split_at(start);
        let end = words.iter().position(|b| *b == b' ');
        let (word, rest) = words.split_at(end.unwrap_or(words.len()));
        self.rest = rest;
        Some(word)
    }

    // The next word, which must be there.
    pub fn word(&mut self) -> Result<&'a [u8], Fault> {
        self.next_word().ok_or(Fault::TooFewWords)
    }

    // The word behind the next n words, which stay to be read.
    pub fn word_behind(mut self, n: usize) -> Result<&'a [u8], Fault> {
        for _ in 0..n {
            self.word()?;
        }
        self.word()
    }

    // Whether just as many words are left as the line takes.
    pub fn has_just(&self, n: usize) -> Result<(), Fault> {
        match self.count(n.saturating_add(1)).cmp(&n) {
            Ordering::Less => Err(Fault::TooFewWords),
            Ordering::Equal => Ok(()),
            Ordering::Greater => Err(Fault::TooManyWords),
        }
    }

    // How many words are left; no more than so many are counted.
    fn count(&self, most: usize) -> usize {
        let parts = self.rest.split(|b| *b == b' ');
        parts.filter(|w| !w.is_empty()).take(most).count()
    }

    // Two hex digits of either case.
    pub fn byte(&mut self) -> Result<u8, Fault> {
        match self.word()? {
            [high, low] => pair(*high, *low),
            _ => Err(Fault::NotHex),
        }
    }

    // A byte string, which goes to the front of these bytes: an even number of digits of either case, or `-` for no bytes.
    pub fn hex<'b>(&mut self, bytes: &'b mut [u8]) -> Result<&'b [u8], Fault> {
        let w = digits_of(self.word()?);
        if w.len() % 2 != 0 {
            return Err(Fault::NotHex);
        }
        let there = bytes.get_mut(..w.len() / 2).ok_or(Fault::NotHex)?;
        for (b, digits) in there.iter_mut().zip(w.chunks_exact(2)) {
            *b = pair(digits[0], digits[1])?;
        }
        Ok(there)
    }

    // A decimal number in the range of its type.
    pub fn number<T: TryFrom<i64>>(&mut self) -> Result<T, Fault>
    where
        T::Error: Drop,
    {
        number(self.word()?)
    }

    // Room of as many of these bytes as the number says; a number past them is out of range.
    pub fn room<'b>(&mut self, bytes: &'b mut [u8]) -> Result<&'b mut [u8], Fault> {
        let n = self.number::<usize>()?;
        bytes.get_mut(..n).ok_or(Fault::OutOfRange)
    }

    // Numbers with single commas between them, or `-` for none, go to the front of a row: these, and what is left of the row. All must be numbers
    // before any is too large.
    pub fn list<'b>(&mut self, row: &'b mut [i32]) -> Result<(&'b [i32], &'b mut [i32]), Fault> {
        let w = self.word()?;
        if matches!(w, b"-") {
            return Ok((&[], row));
        }
        if !w.split(is_comma).all(is_number) {
            return Err(Fault::NotANumber);
        }
        let n = w.split(is_comma).count();
        let (there, left) = row.split_at_mut_checked(n).ok_or(Fault::OutOfRange)?;
        for (place, one) in there.iter_mut().zip(w.split(is_comma)) {
            *place = number(one)?;
        }
        Ok((there, left))
    }
}

// ---- byte strings

// The digits of a byte string: `-` has none.
fn digits_of(w: &[u8]) -> &[u8] {
    match w {
        b"-" => &[],
        _ => w,
    }
}

// The byte of two hex digits.
fn pair(high: u8, low: u8) -> Result<u8, Fault> {
    Ok(digit(high)? * 16 + digit(low)?)
}

// What a hex digit of either case stands for.
fn digit(c: u8) -> Result<u8, Fault>
    ensures { IfOk result (λ d. d < 16) }
{
    match c {
        b'0'..=b'9' => Ok(c - b'0'),
        b'A'..=b'F' => Ok(c - b'A' + 10),
        b'a'..=b'f' => Ok(c - b'a' + 10),
        _ => Err(Fault::NotHex),
    }
}

// ---- numbers

fn number<T: TryFrom<i64>>(w: &[u8]) -> Result<T, Fault>
where
    T::Error: Drop,
{
    if !is_number(w) {
        return Err(Fault::NotANumber);
    }
    in_range(w).ok_or(Fault::OutOfRange)
}

// Whether a word is a number: one or more digits, or `-` before them.
fn is_number(w: &[u8]) -> bool {
    let digits = w.strip_prefix(b"-").unwrap_or(w);
    !digits.is_empty() && digits.iter().all(|d| d.is_ascii_digit())
}

// What a number is, unless it is past the range of its type.
fn in_range<T: TryFrom<i64>>(w: &[u8]) -> Option<T>
where
    T::Error: Drop,
{
    let n = str::from_utf8(w).ok()?.parse::<i64>().ok()?;
    T::try_from(n).ok()
}

fn is_comma(b: &u8) -> bool {
    *b == b','
}
