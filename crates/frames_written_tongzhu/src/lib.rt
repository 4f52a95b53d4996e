// Tongzhu frames written (002, 4; 01, Tongzhu): the head before a payload and the check after it. `frames_tongzhu` reads them.
#![tactic(auto)]

ghost use Rattle.std.specs.Prelude.{◌≡◌, ◌+◌, ◌≤◌, [], ◌∷◌, length, OnOk};
ghost use Rattle.refusals.specs.Writing.{left_after};
ghost use Rattle.frames_written_tongzhu.specs.Writing.{half_as, begun, sealed};

use refusals::Refusal;
use sums::close256;

// Puts the five bytes before a payload of `len` bytes. The payload then goes to the part from 5 to `len + 5`.
pub fn begin(function: u8, len: usize, out: &mut [u8]) -> Result<usize, Refusal>
    ensures answer { result ≡ half_as len (length out.old) }
    ensures room { out.new ≡ left_after result (begun function len out.old) out.old }
{
    let size = half(len, out.len())?;
    out[..5].copy_from_slice(&[0x7F, 0x10, 0x02, (len + 6) as u8, function]);
    Ok(size)
}

// Puts the check after a payload of `len` bytes that was begun.
pub fn seal(len: usize, out: &mut [u8]) -> Result<usize, Refusal>
    ensures answer { result ≡ half_as len (length out.old) }
    ensures room { out.new ≡ left_after result (sealed len out.old) out.old }
{
    let size = half(len, out.len())?;
    let check = close256(&out[0..len + 5]);
    put_end(check, &mut out[len + 5..len + 6]);
    Ok(size)
}

// What either half answers: 8 where the length byte cannot say the frame's length, 11 where the room is too small.
#[tactic(auto, unfolding(refusals::specs::Writing::written_as))]
fn half(len: usize, places: usize) -> Result<usize, Refusal>
    ensures answer { result ≡ half_as len places }
    ensures fits { OnOk result ((len ≤ 249) × (len + 6 ≤ places)) }
{
    if 249 < len {
        return Err(Refusal::Shape);
    }
    if places < len + 6 {
        return Err(Refusal::Room);
    }
    Ok(len + 6)
}

// The check. Tongzhu has no end mark.
fn put_end(check: u8, out: &mut [u8])
    requires { length out.old ≡ 1 }
    ensures { out.new ≡ check ∷ [] }
{
    out[0] = check;
}
