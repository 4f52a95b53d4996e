// Pathfinder frames written (000, Serial message format; 01, Pathfinder): start mark, length and opcode before the data, checksum and end mark
// after them. `frames_pathfinder` reads them.
#![tactic(auto)]

ghost use Rattle.std.specs.Prelude.{◌≡◌, length};
ghost use Rattle.refusals.specs.Writing.{left_after};
ghost use Rattle.frames_written_pathfinder.specs.Writing.{end_of, half_as, begun, sealed};

use checks::crc16;
use refusals::Refusal;

// Puts the three bytes before `len` bytes of data. The data then go to the part from 3 to `len + 3`.
#[tactic(auto, using(crate::proofs::Writers::half_says))]
pub fn begin(opcode: u8, len: usize, out: &mut [u8]) -> Result<usize, Refusal>
    ensures answer { result ≡ half_as len (length out.old) }
    ensures room { out.new ≡ left_after result (begun opcode len out.old) out.old }
{
    let head = half(len, out.len())?;
    out[..3].copy_from_slice(&[0xFE, (len + 1) as u8, opcode]);
    Ok(head)
}

// Puts checksum and end mark after `len` bytes of data that were begun.
#[tactic(auto, using(crate::proofs::Writers::half_says, crate::proofs::Writers::sealed_is))]
pub fn seal(len: usize, out: &mut [u8]) -> Result<usize, Refusal>
    ensures answer { result ≡ half_as len (length out.old) }
    ensures room { out.new ≡ left_after result (sealed len out.old) out.old }
{
    let end = half(len, out.len())?;
    let sum = crc16(&out[1..len + 3]);
    put_end(sum, &mut out[len + 3..len + 6]);
    Ok(end)
}

// What either half answers: 8 where the length byte cannot say the frame's length, 11 where the room is too small.
#[tactic(auto, unfolding(refusals::specs::Writing::written_as))]
fn half(len: usize, places: usize) -> Result<usize, Refusal>
    ensures { result ≡ half_as len places }
{
    if 254 < len {
        return Err(Refusal::Shape);
    }
    if places < len + 6 {
        return Err(Refusal::Room);
    }
    Ok(len + 6)
}

// Checksum and end mark.
fn put_end(sum: u16, out: &mut [u8])
    requires { length out.old ≡ 3 }
    ensures { out.new ≡ end_of sum }
{
    out.copy_from_slice(&[(sum / 256) as u8, (sum % 256) as u8, 0xFD]);
}
