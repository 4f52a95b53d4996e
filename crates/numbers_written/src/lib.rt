// The bytes of unsigned numbers of 16 and 32 bits, the low or the high byte first.
#![tactic(auto)]

ghost use Rattle.std.specs.Prelude.{◌≡◌};
ghost use Rattle.numbers.specs.Bytes.{bytes_of};

use numbers::Order;

// The two bytes of a number.
pub fn bytes16(order: Order, half: u16) -> [u8; 2]
    ensures { result ≡ bytes_of order 2 half }
{
    match order {
        Order::LowFirst => half.to_le_bytes(),
        Order::HighFirst => half.to_be_bytes(),
    }
}

// The four bytes of a number.
pub fn bytes32(order: Order, word: u32) -> [u8; 4]
    ensures { result ≡ bytes_of order 4 word }
{
    match order {
        Order::LowFirst => word.to_le_bytes(),
        Order::HighFirst => word.to_be_bytes(),
    }
}
