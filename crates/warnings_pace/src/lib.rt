// The reply to 44, status (004, Get Status; 01, PACE).
// INFO comes as characters; where they are no bytes that is refused first, and the rest is said of the bytes that they carry.
#![tactic(auto)]

ghost use Rattle.std.specs.Prelude.{◌≡◌, ◌≤◌};
ghost use Rattle.characters_pace.specs.Characters.{bytes_in, checked_info};
ghost use Rattle.warnings_pace.specs.Warnings.{status_of, with_counts, reading_of};

use counts_pace::counts_of;
use lists_pace::bytes_of;
use refusals::Refusal;

// The counts of cells and temperatures, and the twelve bytes behind their warnings.
#[derive(Clone, Copy, Debug, PartialEq, Eq)]
pub struct Warnings {
    pub cells: u8,
    pub temperatures: u8,
    pub charge_current: u8,
    pub total_voltage: u8,
    pub discharge_current: u8,
    pub protection1: u8,
    pub protection2: u8,
    pub system: u8,
    pub configuration: u8,
    pub fault: u8,
    pub balance_high: u8,
    pub balance_low: u8,
    pub warning1: u8,
    pub warning2: u8,
}

// The twelve bytes, with a warning for each cell and each temperature; places past a count are 0.
#[derive(Clone, Copy, Debug, PartialEq, Eq)]
pub struct Reading {
    pub status: Warnings,
    pub cells: [u8; 16],
    pub temperatures: [u8; 8],
}

// The warnings in INFO, or why there are none.
pub fn read_warnings(address: u8, info: &[u8]) -> Result<Reading, Refusal>
    ensures { result ≡ checked_info (reading_of address) info.now }
{
    let counts = counts_of(false, 12, address, info)?;
    Ok(with_counts(counts.cells, counts.temperatures, info))
}

// The warnings of so many cells and temperatures.
fn with_counts(cells: u8, temperatures: u8, info: &[u8]) -> Reading
    requires { (cells ≤ 16) × (temperatures ≤ 8) }
    ensures { result ≡ with_counts cells temperatures (bytes_in info.now) }
{
    let c = cells as usize;
    let t = temperatures as usize;
    let mut of_cells = [0u8; 16];
    bytes_of(info, 3, &mut of_cells[0..c]);
    let mut of_temperatures = [0u8; 8];
    bytes_of(info, cells + 4, &mut of_temperatures[0..t]);
    Reading {
        status: status_of(cells, temperatures, info),
        cells: of_cells,
        temperatures: of_temperatures,
    }
}

// The twelve bytes behind the warnings of so many cells and temperatures.
fn status_of(cells: u8, temperatures: u8, info: &[u8]) -> Warnings
    requires { (cells ≤ 16) × (temperatures ≤ 8) }
    ensures { result ≡ status_of cells temperatures (bytes_in info.now) }
{
    let mut b = [0u8; 12];
    bytes_of(info, cells + temperatures + 4, &mut b[0..12]);
    Warnings {
        cells,
        temperatures,
        charge_current: b[0],
        total_voltage: b[1],
        discharge_current: b[2],
        protection1: b[3],
        protection2: b[4],
        system: b[5],
        configuration: b[6],
        fault: b[7],
        balance_high: b[8],
        balance_low: b[9],
        warning1: b[10],
        warning2: b[11],
    }
}
