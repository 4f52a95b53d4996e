// Answers for languages that share no enum and no struct: one number for the answer, a lent row of numbers for its values, lent bytes for
// its text. `specs/Told.antt` says which number and which values; the crates `exports_*` say it for each device.
#![tactic(auto)]

ghost use Rattle.std.specs.Prelude.{◌≡◌, length};
ghost use Rattle.refusals.specs.Numbers.{number_of};
ghost use Rattle.exports_answers.specs.Told.{coded_as, room_code, over};
ghost use Rattle.exports_answers.specs.Writing.{written_code};

use exports_parts::put;
use refusals::Refusal;

// A kind of answer and its number in one: the number below 2 to the 32, the kind above it.
pub fn coded(kind: u8, n: usize) -> u64
    ensures { result ≡ coded_as kind n }
{
    (kind as u64) * 4294967296 + (n as u64) % 4294967296
}

// What a writer of requests answered, as one number.
pub fn written_number(written: Result<usize, Refusal>) -> u64
    ensures { result ≡ written_code written }
{
    match written {
        Ok(n) => coded(1, n),
        Err(why) => told(why),
    }
}

// A refusal, as its number.
pub fn told(why: Refusal) -> u64
    ensures { result ≡ number_of why }
{
    u64::from(why.number())
}

// An answer of this kind whose values are these numbers: they go to the front of the row.
pub fn put_numbers(kind: u8, numbers: &[i32], row: &mut [i32]) -> u64
    ensures answer { result ≡ room_code kind (length numbers.now) (length row.old) }
    ensures filled { row.new ≡ over numbers.now row.old }
{
    match put(numbers, 0, row) {
        Ok(()) => coded(kind, numbers.len()),
        Err(why) => told(why),
    }
}

// An answer of this kind whose text this is: it goes to the front of the bytes.
pub fn put_text(kind: u8, text: &[u8], out: &mut [u8]) -> u64
    ensures answer { result ≡ room_code kind (length text.now) (length out.old) }
    ensures copied { out.new ≡ over text.now out.old }
{
    if out.len() < text.len() {
        return told(Refusal::Room);
    }
    out[..text.len()].copy_from_slice(text);
    coded(kind, text.len())
}
