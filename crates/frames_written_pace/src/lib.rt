// PACE frames written (004; 01, PACE): a payload as characters between the header and CHKSUM. `frames_pace` reads them.
#![tactic(auto)]

ghost use Rattle.std.specs.Prelude.{◌≡◌, ◌++◌, ◌+◌, ◌*◌, ◌≤◌, ◌<◌, length, drop};
ghost use Rattle.characters_pace.specs.Characters.{hexed};
ghost use Rattle.refusals.specs.Writing.{room_after};
ghost use Rattle.frames_written_pace.specs.Written.{head_bytes, end_of, frame_chars, framed_as, sealed};

use frames_pace::{CID1, FIRST, LAST, VERSION};
use lengths_pace::length_word;
use lists_written_pace::put_hex;
use numbers::Order;
use numbers_written::bytes16;
use refusals::Refusal;
use sums::close65536;

// Writes the frame with this address, command and payload to the front of the room; its bytes are characters.
pub fn write_frame(address: u8, command: u8, info: &[u8], out: &mut [u8]) -> Result<usize, Refusal>
    ensures answer { result ≡ framed_as (length info.now) (length out.old) }
    ensures room { out.new ≡ room_after result (frame_chars address command info.now) out.old }
{
    let size = framed(info.len(), out.len())?;
    put_frame(address, command, info, out);
    Ok(size)
}

// What the writer answers: 8 where LENGTH cannot count the payload's characters, 11 where the room is too small.
#[tactic(auto, unfolding(refusals::specs::Writing::written_as))]
fn framed(len: usize, places: usize) -> Result<usize, Refusal>
    ensures { result ≡ framed_as len places }
{
    if 2047 < len {
        return Err(Refusal::Shape);
    }
    if places < 2 * len + 18 {
        return Err(Refusal::Room);
    }
    Ok(2 * len + 18)
}

// The frame, where the room holds it. The header, then the part for the payload lent to its writer, then the part for CHKSUM and the last mark.
fn put_frame(address: u8, command: u8, info: &[u8], out: &mut [u8])
    requires { (length info.now ≤ 2047) × (2 * length info.now + 18 ≤ length out.old) }
    ensures { out.new ≡ frame_chars address command info.now ++ drop (2 * length info.now + 18) out.old }
{
    let n = 2 * info.len();
    out[0] = FIRST;
    put_head(address, command, n as u16, &mut out[1..13]);
    let _ = put_hex(info, &mut out[13..n + 13]);
    seal(n, out);
}

// Version, address, CID1, command and the LENGTH of so many characters.
fn put_head(address: u8, command: u8, count: u16, out: &mut [u8])
    requires { (count < 4096) × (length out.old ≡ 12) }
    ensures { out.new ≡ hexed (head_bytes address command count) }
{
    let Some(word) = length_word(count) else {
        return;
    };
    let size = bytes16(Order::HighFirst, word);
    let _ = put_hex(&[VERSION, address, CID1, command, size[0], size[1]], out);
}

// CHKSUM and the last mark of a frame whose first mark, header and n characters of INFO stand at the front.
fn seal(n: usize, out: &mut [u8])
    requires { n + 18 ≤ length out.old }
    ensures { out.new ≡ sealed n out.old }
{
    let sum = close65536(&out[1..n + 13]);
    put_end(sum, &mut out[n + 13..n + 18]);
}

// CHKSUM and the last mark.
fn put_end(sum: u16, out: &mut [u8])
    requires { length out.old ≡ 5 }
    ensures { out.new ≡ end_of sum }
{
    let _ = put_hex(&bytes16(Order::HighFirst, sum), &mut out[0..4]);
    out[4] = LAST;
}
