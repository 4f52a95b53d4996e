// The reply to 42, analog information (004, Get Analog Information; 01, PACE).
// INFO comes as characters; where they are no bytes that is refused first, and the rest is said of the bytes that they carry.
#![tactic(auto)]

ghost use Rattle.std.specs.Prelude.{◌≡◌, ◌≤◌, length};
ghost use Rattle.characters_pace.specs.Characters.{bytes_in, checked_info};
ghost use Rattle.analog_pace.specs.Analog.{tenths_of, tenths_at, numbers_of, with_counts, reading_of};

use characters_pace::{byte_of, word_of};
use counts_pace::counts_of;
use lists_pace::words_of;
use refusals::Refusal;
use signs::signed16;

// The counts of cells and temperatures, and the numbers behind their values.
#[derive(Clone, Copy, Debug, PartialEq, Eq)]
pub struct Analog {
    pub cells: u8,
    pub temperatures: u8,
    pub current_10ma: i16,
    pub total_mv: u16,
    pub remaining_10mah: u16,
    pub full_10mah: u16,
    pub cycles: u16,
    pub design_10mah: u16,
}

// The numbers, with the cells' millivolts and the temperatures in tenths of a degree; places past a count are 0.
#[derive(Clone, Copy, Debug, PartialEq, Eq)]
pub struct Reading {
    pub numbers: Analog,
    pub cells: [u16; 16],
    pub temperatures: [i32; 8],
}

// The analog information in INFO, or why there is none.
pub fn read_analog(address: u8, info: &[u8]) -> Result<Reading, Refusal>
    ensures { result ≡ checked_info (reading_of address) info.now }
{
    let counts = counts_of(true, 13, address, info)?;
    with_counts(counts.cells, counts.temperatures, info)
}

// The analog information of so many cells and temperatures.
fn with_counts(cells: u8, temperatures: u8, info: &[u8]) -> Result<Reading, Refusal>
    requires { (cells ≤ 16) × (temperatures ≤ 8) }
    ensures { result ≡ with_counts cells temperatures (bytes_in info.now) }
{
    let c = cells as usize;
    let t = temperatures as usize;
    if byte_of(info, 2 * c + 2 * t + 10) != 3 {
        return Err(Refusal::Shape);
    }
    let mut volts = [0u16; 16];
    words_of(info, 3, &mut volts[0..c]);
    let mut tenths = [0i32; 8];
    put_tenths(info, 2 * c + 4, &mut tenths[0..t]);
    Ok(Reading {
        numbers: numbers_of(cells, temperatures, info),
        cells: volts,
        temperatures: tenths,
    })
}

// The numbers behind the values of so many cells and temperatures.
fn numbers_of(cells: u8, temperatures: u8, info: &[u8]) -> Analog
    ensures { result ≡ numbers_of cells temperatures (bytes_in info.now) }
{
    let at = 2 * (cells as usize) + 2 * (temperatures as usize) + 4;
    Analog {
        cells,
        temperatures,
        current_10ma: signed16(word_of(info, at)),
        total_mv: word_of(info, at + 2),
        remaining_10mah: word_of(info, at + 4),
        full_10mah: word_of(info, at + 7),
        cycles: word_of(info, at + 9),
        design_10mah: word_of(info, at + 11),
    }
}

// Fills the row with the temperatures from a place on.
fn put_tenths(info: &[u8], at: usize, row: &mut [i32])
    requires { (at ≤ 36) × (length row.old ≤ 8) }
    ensures { row.new ≡ tenths_at at (length row.old) (bytes_in info.now) }
{
    for (i, place) in row.iter_mut().enumerate() {
        *place = tenths_of(word_of(info, at + 2 * i));
    }
}

// Tenths of a degree Celsius.
fn tenths_of(count: u16) -> i32
    ensures { result ≡ tenths_of count }
{
    count as i32 - 2730
}
