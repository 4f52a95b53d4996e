// The checksum: CRC-16/XMODEM over bytes (000, Checksum; 01, Pathfinder).
#![tactic(auto)]

ghost use Rattle.std.specs.Prelude.{◌≡◌, ◌<◌, take};
ghost use Rattle.checks.specs.Crc.{shifts, crc_step, crc_from, crc_of};

// The checksum of the bytes: of the first alone, where their number is odd, and then two at a time.
pub fn crc16(s: &[u8]) -> u16
    ensures { result ≡ crc_of s.now }
{
    let (odd, pairs) = s.as_rchunks::<2>();
    let mut r = crc_first(odd);
    for pair in pairs {
        r = crc_pair(r, pair[0], pair[1]);
    }
    r as u16
}

// The register after the first byte, of an odd number of them the only one here; 0 where there is none.
fn crc_first(odd: &[u8]) -> u32
    ensures { (result ≡ crc_from 0 (take 1 odd.now)) × (result < 65536) }
{
    match odd.first() {
        Some(byte) => crc_pair(0, 0, *byte),
        None => 0,
    }
}

// The register after two bytes. The loop above goes by this contract alone: another way to move the register changes only what is below.
fn crc_pair(r: u32, a: u8, b: u8) -> u32
    requires { r < 65536 }
    ensures { (result ≡ crc_step (crc_step r a) b) × (result < 65536) }
{
    sixteen(r ^ (a as u32 * 256 + b as u32))
}

// Sixteen moves of the register at once. What falls out at the top comes back 16, 11 and 4 bits lower; `mixed` is the register with all
// that comes back over and over, `spread` what the sixteen moves make of it.
fn sixteen(x: u32) -> u32
    requires { x < 65536 }
    ensures { (result ≡ shifts 8 (shifts 8 x)) × (result < 65536) }
{
    let y = x ^ (x / 16);
    let mixed = y ^ (y / 256) ^ (x / 2048);
    mixed ^ (mixed % 2048 * 32) ^ (mixed % 16 * 4096)
}

// The register after one byte more, for a caller that walks the bytes itself.
pub fn crc_step(r: u16, b: u8) -> u16
    ensures { result ≡ crc_step r b }
{
    eight(r ^ (b as u16 * 256))
}

// Eight moves of the register at once, in the same way.
fn eight(x: u16) -> u16
    ensures { result ≡ shifts 8 x }
{
    let y = (x / 256) ^ (x / 4096);
    (x % 256 * 256) ^ y ^ (y % 256 * 32) ^ (y % 16 * 4096)
}
