// Bytes as PACE characters (01, PACE): two upper-case hex digits a byte, the high digit first. Numbers have the high byte first.
#![tactic(auto)]

ghost use Rattle.std.specs.Prelude.{◌≡◌, get_or};
ghost use Rattle.digits.specs.Hexes.{byte_of};
ghost use Rattle.characters_pace.specs.Characters.{value_in, bytes_in, word_at};

use digits::read_byte;
use numbers::{Order, number16};

// The byte at place i of the bytes that these characters are, 0 past their end.
pub fn byte_of(s: &[u8], i: usize) -> u8
    ensures { result ≡ get_or (bytes_in s.now) i 0 }
{
    if i < s.len() / 2 {
        pair_of(s[2 * i], s[2 * i + 1])
    } else {
        0
    }
}

// The number of the two bytes from place i on.
pub fn word_of(s: &[u8], i: usize) -> u16
    ensures { result ≡ word_at (bytes_in s.now) i }
{
    if i < s.len() / 2 {
        number16(Order::HighFirst, byte_of(s, i), byte_of(s, i + 1))
    } else {
        0
    }
}

// The byte of two characters, 0 where one is no digit.
fn pair_of(high: u8, low: u8) -> u8
    ensures { result ≡ value_in (byte_of high low) }
{
    read_byte(high, low).unwrap_or(0)
}
