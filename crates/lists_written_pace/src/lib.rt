// Bytes as PACE characters (01, PACE), written to the front of a lent room.
#![tactic(auto)]

ghost use Rattle.std.specs.Prelude.{◌≡◌, length, Ok};
ghost use Rattle.refusals.specs.Writing.{written_as, room_after};
ghost use Rattle.characters_pace.specs.Characters.{hexed};

use digits::write_byte;
use refusals::Refusal;

// Writes the characters of the bytes to the front of the room, if it holds them.
pub fn put_hex(bytes: &[u8], out: &mut [u8]) -> Result<usize, Refusal>
    ensures answer { result ≡ written_as (Ok tt) (length (hexed bytes.now)) (length out.old) }
    ensures room { out.new ≡ room_after result (hexed bytes.now) out.old }
{
    if out.len() / 2 < bytes.len() {
        return Err(Refusal::Room);
    }
    for (i, &byte) in bytes.iter().enumerate() {
        let [high, low] = write_byte(byte);
        out[2 * i] = high;
        out[2 * i + 1] = low;
    }
    Ok(2 * bytes.len())
}
