// A word on the wire: a signed 32-bit number in four bytes, the low one first (000, Serial message format).
#![tactic(auto)]

ghost use Rattle.std.specs.Prelude.{◌≡◌};
ghost use Rattle.words_pathfinder.specs.Words.{word_of, bytes_of_word};

use numbers::{Order, number32};
use numbers_written::bytes32;
use signs::{bits32, signed32};

// The signed number of four bytes.
pub fn word(a: u8, b: u8, c: u8, d: u8) -> i32
    ensures { result ≡ word_of a b c d }
{
    signed32(number32(Order::LowFirst, a, b, c, d))
}

// The four bytes of a signed number.
pub fn word_bytes(v: i32) -> [u8; 4]
    ensures { result ≡ bytes_of_word v }
{
    bytes32(Order::LowFirst, bits32(v))
}
