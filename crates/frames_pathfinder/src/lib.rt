// Pathfinder frames (000, Serial message format; 01, Pathfinder): FE, length, opcode, data, checksum with the high byte first, FD.
// The length counts opcode and data, so a frame has 6 to 260 bytes; the checksum covers length, opcode and data.
// `frames_written_pathfinder` writes them.
#![tactic(auto)]

ghost use Rattle.std.specs.Prelude.{◌≡◌, [], ◌∷◌, eqb};
ghost use Rattle.checks.specs.Crc.{crc_of};
ghost use Rattle.numbers.specs.declared.Order.TheVariants.{HighFirst};
ghost use Rattle.numbers.specs.Bytes.{number_of};
ghost use Rattle.frames_pathfinder.specs.Reading.{frame_of};

use checks::crc16;
use numbers::{Order, number16};
use refusals::Refusal;

// A whole frame: its opcode, where its data start and how many bytes they are.
#[derive(Clone, Copy, Debug, PartialEq, Eq)]
pub struct Frame {
    pub opcode: u8,
    pub start: usize,
    pub len: usize,
}

// Reads a frame, a reply's or a request's.
pub fn read_frame(s: &[u8]) -> Result<Frame, Refusal>
    ensures { result ≡ frame_of s.now }
{
    if s.len() < 6 {
        return Err(Refusal::Short);
    }
    // Places are counted from the input's end, so that every test can be made, whatever the others say; the refusals are a ladder in the order of 01.
    let last = s.len() - 1;
    let starts = s[0] == 0xFE;
    let fits = s.len() == s[1] as usize + 5;
    let ends = s[last] == 0xFD;
    if !starts {
        return Err(Refusal::FirstMark);
    }
    if !fits {
        return Err(Refusal::Length);
    }
    // Only now, since the checksum is dear and the input may be long.
    let closes = has_sum(&s[1..last - 2], s[last - 2], s[last - 1]);
    if !ends {
        return Err(Refusal::LastMark);
    }
    if !closes {
        return Err(Refusal::Checksum);
    }
    Ok(Frame {
        opcode: s[2],
        start: 3,
        len: last - 5,
    })
}

// Whether the checksum of these bytes is the one given.
fn has_sum(covered: &[u8], high: u8, low: u8) -> bool
    ensures { result ≡ eqb (crc_of covered.now) (number_of HighFirst (high ∷ low ∷ [])) }
{
    crc16(covered) == number16(Order::HighFirst, high, low)
}
