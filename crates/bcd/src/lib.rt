// BCD bytes: two decimal digits in a byte (002, 6.9.3 and 6.11.2).
#![tactic(auto, unfolding(crate::specs::Decimal::bcd_of, crate::specs::Decimal::bcd_byte))]

ghost use Rattle.std.specs.Prelude.{◌≡◌};
ghost use Rattle.bcd.specs.Decimal.{bcd_of, bcd_byte};

// The number of a BCD byte; none where a digit is above 9.
pub fn read_bcd(b: u8) -> Option<u8>
    ensures { result ≡ bcd_of b }
{
    let high = b / 16;
    let low = b % 16;
    if high < 10 && low < 10 {
        Some(high * 10 + low)
    } else {
        None
    }
}

// The BCD byte of a number up to 99; none of a greater one.
pub fn write_bcd(n: u8) -> Option<u8>
    ensures { result ≡ bcd_byte n }
{
    if n < 100 {
        Some(n / 10 * 16 + n % 10)
    } else {
        None
    }
}
