// Sums of bytes: what closes one to 0 (01, Tongzhu: modulo 256; 01, PACE: modulo 65,536), and its low byte (01, The 58-byte monitor).
#![tactic(auto)]

ghost use Rattle.std.specs.Prelude.{◌≡◌, ◌%◌};
ghost use Rattle.sums.specs.Sums.{total, closing, closes};

// The byte that brings the sum of the bytes to 0 modulo 256.
pub fn close256(s: &[u8]) -> u8
    ensures { result ≡ closing 256 (total s.now) }
{
    ((256 - sum256(s) as u32) % 256) as u8
}

// The number that brings the sum of the bytes to 0 modulo 65,536.
pub fn close65536(s: &[u8]) -> u16
    ensures { result ≡ closing 65536 (total s.now) }
{
    ((65536 - sum65536(s)) % 65536) as u16
}

// Whether the bytes and their check sum to 0 modulo 65,536.
pub fn closes65536(s: &[u8], check: u16) -> bool
    ensures { result ≡ closes 65536 (total s.now) check }
{
    (sum65536(s) + check as u32) % 65536 == 0
}

// The low byte of the sum of the bytes: 0 for a whole Tongzhu frame (01, Tongzhu), the check of the 58-byte monitor (001, byte 58). A byte that goes
// round is added up sixteen at a time.
pub fn sum256(s: &[u8]) -> u8
    ensures { result ≡ total s.now % 256 }
{
    let mut t: u8 = 0;
    for byte in s {
        t = t.wrapping_add(*byte);
    }
    t
}

// The low 16 bits of the sum of the bytes. A plain sum is added up several bytes at a time.
fn sum65536(s: &[u8]) -> u32
    ensures { result ≡ total s.now % 65536 }
{
    let mut t: u32 = 0;
    for byte in s {
        t = t.wrapping_add(u32::from(*byte));
    }
    t % 65536
}
