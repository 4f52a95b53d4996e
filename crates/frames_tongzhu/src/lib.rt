// Tongzhu frames (002, 4; 01, Tongzhu): 7F, 10, 02, LEN, FUN, MSG, check. LEN counts the whole frame, 6 to 255, and all bytes
// with the check sum to 0 modulo 256. `frames_written_tongzhu` writes them.
#![tactic(auto)]

ghost use Rattle.std.specs.Prelude.{◌≡◌, ◌&&◌, eqb};
ghost use Rattle.frames_tongzhu.specs.Reading.{frame_of};

use refusals::Refusal;
use sums::sum256;

// A whole frame: its function, where its payload starts and how many bytes the payload has.
#[derive(Clone, Copy, Debug, PartialEq, Eq)]
pub struct Frame {
    pub function: u8,
    pub start: usize,
    pub len: usize,
}

// Reads a frame, a reply's or a request's.
#[tactic(auto, using(crate::proofs::Ladder::check_test), unfolding(crate::specs::Reading::frame_of))]
pub fn read_frame(s: &[u8]) -> Result<Frame, Refusal>
    ensures { result ≡ frame_of s.now }
{
    if s.len() < 6 {
        return Err(Refusal::Short);
    }
    // Of 6 bytes or more every test can be made, whatever the others say; the refusals are a ladder in the order of 01.
    let starts = s[0] == 0x7F;
    let fits = s.len() == s[3] as usize;
    let closes = sum256(s) == 0;
    let addressed = is_addressed(s[1], s[2]);
    if !starts {
        return Err(Refusal::FirstMark);
    }
    if !fits {
        return Err(Refusal::Length);
    }
    if !closes {
        return Err(Refusal::Checksum);
    }
    if !addressed {
        return Err(Refusal::Address);
    }
    Ok(Frame {
        function: s[4],
        start: 5,
        len: s.len() - 6,
    })
}

// Whether the address is 10 and the version 02.
fn is_addressed(address: u8, version: u8) -> bool
    ensures { result ≡ (eqb address 0x10 && eqb version 0x02) }
{
    address == 0x10 && version == 0x02
}
