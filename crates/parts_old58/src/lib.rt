// The parts of a record of the 58-byte monitor (001; 01, The 58-byte monitor), each from its own bytes, numbers with the high byte first.
// Places are the document's byte numbers, counted from 1. That the bytes are a record is another crate's to say (`old58::judge`).
#![tactic(auto)]

ghost use Rattle.std.specs.Prelude.{◌≡◌, ◌≤◌, ◌<◌};
ghost use Rattle.parts_old58.specs.Parts.{byte_at, two_at, three_at, volts_at, degrees_at, current_of, current_at, pack_of, extremes_of, cell_of, energy_of, setup_of};

use numbers::{Order, number16, number24};

// Bytes 1 to 12. A current is missing where its sign is X.
#[derive(Clone, Copy, Debug, PartialEq, Eq)]
pub struct Pack {
    pub total_mv: u32,
    pub current_ma: Option<i32>,
    pub current2_ma: Option<i32>,
    pub current3_ma: Option<i32>,
}

// Bytes 13 to 24: the extremes, and in which cell each was met.
#[derive(Clone, Copy, Debug, PartialEq, Eq)]
pub struct Extremes {
    pub lowest_mv: u32,
    pub lowest_cell: u8,
    pub highest_mv: u32,
    pub highest_cell: u8,
    pub coldest_c: i32,
    pub coldest_cell: u8,
    pub hottest_c: i32,
    pub hottest_cell: u8,
}

// Bytes 25 to 31: one cell of so many, and the status bits.
#[derive(Clone, Copy, Debug, PartialEq, Eq)]
pub struct Cell {
    pub cell: u8,
    pub cells: u8,
    pub cell_mv: u32,
    pub cell_c: i32,
    pub status: u8,
}

// Bytes 32 to 47.
#[derive(Clone, Copy, Debug, PartialEq, Eq)]
pub struct Energy {
    pub collected_today_wh: u32,
    pub stored_wh: u32,
    pub consumed_today_wh: u32,
    pub soc_percent: u8,
    pub collected_kwh: u32,
    pub consumed_kwh: u32,
}

// Bytes 48 to 57. The three voltage settings are counts, since step and example of 001 disagree.
#[derive(Clone, Copy, Debug, PartialEq, Eq)]
pub struct Setup {
    pub hour: u8,
    pub minute: u8,
    pub capacity_100wh: u16,
    pub vmin_count: u16,
    pub vmax_count: u16,
    pub vbypass_count: u16,
}

// The parts of a record, each from its own bytes; a byte past the end is 0.
#[tactic(auto, unfolding(crate::specs::Parts::pack_of))]
pub fn pack_of(s: &[u8]) -> Pack
    ensures { result ≡ pack_of s.now }
{
    Pack {
        total_mv: 5 * three_at(s, 1),
        current_ma: current_at(s, 4),
        current2_ma: current_at(s, 7),
        current3_ma: current_at(s, 10),
    }
}

#[tactic(auto, unfolding(crate::specs::Parts::extremes_of))]
pub fn extremes_of(s: &[u8]) -> Extremes
    ensures { result ≡ extremes_of s.now }
{
    Extremes {
        lowest_mv: volts_at(s, 13),
        lowest_cell: byte_at(s, 15),
        highest_mv: volts_at(s, 16),
        highest_cell: byte_at(s, 18),
        coldest_c: degrees_at(s, 19),
        coldest_cell: byte_at(s, 21),
        hottest_c: degrees_at(s, 22),
        hottest_cell: byte_at(s, 24),
    }
}

#[tactic(auto, unfolding(crate::specs::Parts::cell_of))]
pub fn cell_of(s: &[u8]) -> Cell
    ensures { result ≡ cell_of s.now }
{
    Cell {
        cell: byte_at(s, 25),
        cells: byte_at(s, 26),
        cell_mv: volts_at(s, 27),
        cell_c: degrees_at(s, 29),
        status: byte_at(s, 31),
    }
}

#[tactic(auto, unfolding(crate::specs::Parts::energy_of))]
pub fn energy_of(s: &[u8]) -> Energy
    ensures { result ≡ energy_of s.now }
{
    Energy {
        collected_today_wh: three_at(s, 32),
        stored_wh: three_at(s, 35),
        consumed_today_wh: three_at(s, 38),
        soc_percent: byte_at(s, 41),
        collected_kwh: three_at(s, 42),
        consumed_kwh: three_at(s, 45),
    }
}

#[tactic(auto, unfolding(crate::specs::Parts::setup_of))]
pub fn setup_of(s: &[u8]) -> Setup
    ensures { result ≡ setup_of s.now }
{
    Setup {
        hour: byte_at(s, 48),
        minute: byte_at(s, 49),
        capacity_100wh: two_at(s, 50),
        vmin_count: two_at(s, 52),
        vmax_count: two_at(s, 54),
        vbypass_count: two_at(s, 56),
    }
}

fn byte_at(s: &[u8], byte: usize) -> u8
    requires { 1 ≤ byte }
    ensures { result ≡ byte_at s.now byte }
{
    s.get(byte - 1).copied().unwrap_or(0)
}

// The number of the two bytes from this one on.
#[tactic(auto, unfolding(crate::specs::Parts::two_at))]
fn two_at(s: &[u8], byte: usize) -> u16
    requires { (1 ≤ byte) × (byte ≤ 56) }
    ensures { result ≡ two_at s.now byte }
{
    number16(Order::HighFirst, byte_at(s, byte), byte_at(s, byte + 1))
}

// The number of the three bytes from this one on.
#[tactic(auto, unfolding(crate::specs::Parts::three_at))]
fn three_at(s: &[u8], byte: usize) -> u32
    requires { (1 ≤ byte) × (byte ≤ 55) }
    ensures { (result ≡ three_at s.now byte) × (result < 16777216) }
{
    number24(
        Order::HighFirst,
        byte_at(s, byte),
        byte_at(s, byte + 1),
        byte_at(s, byte + 2),
    )
}

// Two bytes of 5 mV a count.
#[tactic(auto, unfolding(crate::specs::Parts::volts_at))]
fn volts_at(s: &[u8], byte: usize) -> u32
    requires { (1 ≤ byte) × (byte ≤ 56) }
    ensures { result ≡ volts_at s.now byte }
{
    5 * u32::from(two_at(s, byte))
}

// Two bytes of degrees, 276 above Celsius.
#[tactic(auto, unfolding(crate::specs::Parts::degrees_at))]
fn degrees_at(s: &[u8], byte: usize) -> i32
    requires { (1 ≤ byte) × (byte ≤ 56) }
    ensures { result ≡ degrees_at s.now byte }
{
    two_at(s, byte) as i32 - 276
}

// A sign byte and the two bytes of 125 mA a count behind it.
#[tactic(auto, unfolding(crate::specs::Parts::current_at))]
fn current_at(s: &[u8], byte: usize) -> Option<i32>
    requires { (1 ≤ byte) × (byte ≤ 55) }
    ensures { result ≡ current_at s.now byte }
{
    current_of(byte_at(s, byte), two_at(s, byte + 1))
}

// 0 is a current too.
#[tactic(auto, unfolding(crate::specs::Parts::current_of))]
fn current_of(sign: u8, count: u16) -> Option<i32>
    ensures { result ≡ current_of sign count }
{
    let amount = 125 * i32::from(count);
    match sign {
        0x2B => Some(amount),
        0x2D => Some(-amount),
        _ => None,
    }
}
