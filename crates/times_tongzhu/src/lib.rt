// The date and time of day that Tongzhu's function 30 sets (002, 6.9.3 and 6.11; 01, Tongzhu): plain numbers, which of them are real, and the
// six BCD bytes that carry them.
#![tactic(auto)]

ghost use Rattle.std.specs.Prelude.{◌≡◌};
ghost use Rattle.bcd.specs.Decimal.{bcd_of, bcd_byte};
ghost use Rattle.times_tongzhu.specs.Times.{plain_of, real, time_in, time_bytes};

use bcd::{read_bcd, write_bcd};
use calendar::{is_date, is_time};

// A date and a time of day, as plain numbers.
#[derive(Clone, Copy, Debug, PartialEq, Eq)]
pub struct Time {
    // 0 to 99, from 2000 on.
    pub year: u8,
    pub month: u8,
    pub day: u8,
    pub hour: u8,
    pub minute: u8,
    pub second: u8,
}

// A date that there is, and a time to 23:59:59.
pub fn is_real(t: Time) -> bool
    ensures { result ≡ real t }
{
    is_date(t.year, t.month, t.day) && is_time(t.hour, t.minute, t.second)
}

// The six bytes of a time; 255, which is no BCD, for a number of more than two digits.
pub fn time_bytes(t: Time) -> [u8; 6]
    ensures { result ≡ time_bytes t }
{
    [
        to_bcd(t.year),
        to_bcd(t.month),
        to_bcd(t.day),
        to_bcd(t.hour),
        to_bcd(t.minute),
        to_bcd(t.second),
    ]
}

// The time of six bytes; it is not real where one of them is no BCD.
pub fn time_in(p: [u8; 6]) -> Time
    ensures { result ≡ time_in p }
{
    Time {
        year: from_bcd(p[0]),
        month: from_bcd(p[1]),
        day: from_bcd(p[2]),
        hour: from_bcd(p[3]),
        minute: from_bcd(p[4]),
        second: from_bcd(p[5]),
    }
}

// What stands for a number or a byte that is no BCD; it is in no real date or time. So a time and its bytes go there and back as plain numbers, and
// what is real is tested once.
const NO_BCD: u8 = 255;

fn to_bcd(n: u8) -> u8
    ensures { result ≡ plain_of (bcd_byte n) }
{
    write_bcd(n).unwrap_or(NO_BCD)
}

fn from_bcd(b: u8) -> u8
    ensures { result ≡ plain_of (bcd_of b) }
{
    read_bcd(b).unwrap_or(NO_BCD)
}
