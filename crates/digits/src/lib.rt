// Hex digits 0-9 and A-F, to and from bytes (01, PACE).
#![tactic(auto)]

ghost use Rattle.std.specs.Prelude.{◌≡◌, ◌%◌};
ghost use Rattle.digits.specs.Hexes.{digit_of, byte_of, char_of, chars_of};

// The number of one hex digit, if the character is one of 0-9 and A-F.
#[tactic(auto, unfolding(crate::specs::Hexes::digit_of))]
pub fn read_digit(c: u8) -> Option<u8>
    ensures { result ≡ digit_of c }
{
    match c {
        48..=57 => Some(c - 48),
        65..=70 => Some(c - 55),
        _ => None,
    }
}

// The byte of two hex digits, if both characters are.
#[tactic(auto, using(crate::proofs::Characters::digit_small))]
pub fn read_byte(high: u8, low: u8) -> Option<u8>
    ensures { result ≡ byte_of high low }
{
    let h = read_digit(high)?;
    let l = read_digit(low)?;
    Some(h * 16 + l)
}

// The two hex digits of a byte.
pub fn write_byte(b: u8) -> [u8; 2]
    ensures { result ≡ chars_of b }
{
    [write_digit(b / 16), write_digit(b % 16)]
}

// The hex digit of the low four bits of n.
fn write_digit(n: u8) -> u8
    ensures { result ≡ char_of (n % 16) }
{
    let d = n % 16;
    if d < 10 { d + 48 } else { d + 55 }
}
