// The fields of Tongzhu's function 12 (002, 6.1.3; 01, Tongzhu), wherever in a payload they begin: a reply to function 12 has them from
// its payload's first byte on. No other place says how these fields lie.
#![tactic(auto)]

ghost use Rattle.std.specs.Prelude.{◌≡◌, ◌+◌, ◌*◌, ◌<◌, ◌≤◌, length, get_or};
ghost use Rattle.monitor3_tongzhu.specs.Values.{number_at, status_at};
ghost use Rattle.monitor3_tongzhu.specs.Layout.{Shaped, shape_of, monitor3_of, found_of, found_at, nowhere, places_by, places_at};

use numbers::{Order, number16};
use refusals::Refusal;
use signs::signed16;

// The battery status (6.1.3.1), byte by byte.
#[derive(Clone, Copy, Debug, PartialEq, Eq)]
pub struct Status {
    pub first: u8,
    pub second: u8,
    pub third: u8,
    pub fourth: u8,
}

// What function 12 tells (6.1.3), but for its lists.
#[derive(Clone, Copy, Debug, PartialEq, Eq)]
pub struct Monitor3 {
    pub status: Status,
    // In 0.1 A, charging positive.
    pub current: i16,
    // How many cells, cell sensors and MOSFET sensors there are.
    pub cells: u8,
    pub sensors: u8,
    pub mosfets: u8,
    pub cycles: u16,
    // In 0.1 Ah.
    pub remaining: u16,
    pub capacity: u16,
    pub switch: u8,
}

// The lists of function 12. Places past a count are 0.
#[derive(Clone, Copy, Debug, PartialEq, Eq)]
pub struct Lists {
    // In mV.
    pub cells: [u16; 32],
    // A bit for each cell, the first cell's the lowest of the first byte.
    pub balance: [u8; 4],
    // In degrees Celsius.
    pub sensors: [i8; 16],
    pub mosfets: [i8; 16],
}

// Where in a payload the lists of function 12 stand, and how many values each has; all 0 where the fields are of the wrong shape.
#[derive(Clone, Copy, Debug, PartialEq, Eq, Default)]
pub struct Places {
    pub cells_from: usize,
    pub cells: usize,
    pub balance_from: usize,
    pub balance: usize,
    pub sensors_from: usize,
    pub sensors: usize,
    pub mosfets_from: usize,
    pub mosfets: usize,
}

// How many values each part of function 12 has, and how many bytes its balanced state has.
#[derive(Clone, Copy, Debug, PartialEq, Eq)]
struct Counts {
    cells: usize,
    flags: usize,
    sensors: usize,
    mosfets: usize,
}

// Reads the numbers of the fields of function 12 that take all of a payload from the place `at` on.
#[tactic(auto, using(crate::proofs::Shapes::counted_shaped, crate::proofs::Shapes::from_there, crate::proofs::Shapes::found_beyond), unfolding(crate::specs::Layout::found_at, crate::specs::Layout::found_of))]
pub fn read_numbers(p: &[u8], at: usize) -> Result<Monitor3, Refusal>
    ensures { result ≡ found_at p.now at }
{
    let q = p.get(at..).ok_or(Refusal::Shape)?;
    let k = shape_of(q).ok_or(Refusal::Shape)?;
    Ok(monitor3_of(q, k))
}

// Says where their lists stand. Of the wrong shape they have no places, each list of none: what fills them from places has 0 past a count then too, so
// an Option here would ask of both callers for a second way to say the same.
#[tactic(auto, using(crate::proofs::Shapes::counted_shaped, crate::proofs::Shapes::from_there, crate::proofs::Shapes::places_beyond), unfolding(crate::specs::Layout::places_at))]
pub fn find_lists(p: &[u8], at: usize) -> Places
    ensures { result ≡ places_at p.now at }
{
    match p.get(at..).and_then(shape_of) {
        Some(k) => places_by(at, k),
        None => Places::default(),
    }
}

// The places by the counts.
fn places_by(at: usize, k: Counts) -> Places
    requires { at + 9 + 2 * k.cells + k.flags + k.sensors ≤ 18446744073709551615 }
    ensures { result ≡ places_by at k }
{
    let balance_from = at + 7 + 2 * k.cells;
    let sensors_from = balance_from + k.flags + 1;
    Places {
        cells_from: at + 7,
        cells: k.cells,
        balance_from,
        balance: k.flags,
        sensors_from,
        sensors: k.sensors,
        mosfets_from: sensors_from + k.sensors + 1,
        mosfets: k.mosfets,
    }
}

// Looks the counts up and tests them against their limits and the number of bytes.
#[tactic(auto, unfolding(crate::specs::Layout::shape_of))]
fn shape_of(q: &[u8]) -> Option<Counts>
    ensures { result ≡ shape_of q.now }
{
    let cells = count_at(q, 6);
    let flags = (cells + 7) / 8;
    let sensors = count_at(q, 7 + 2 * cells + flags);
    let mosfets = count_at(q, 8 + 2 * cells + flags + sensors);
    let bytes = 16 + 2 * cells + flags + sensors + mosfets;
    if 1 <= cells && cells <= 32 && sensors <= 16 && mosfets <= 16 && q.len() == bytes {
        Some(Counts {
            cells,
            flags,
            sensors,
            mosfets,
        })
    } else {
        None
    }
}

// The numbers of function 12.
#[tactic(auto, unfolding(crate::specs::Layout::monitor3_of))]
fn monitor3_of(q: &[u8], k: Counts) -> Monitor3
    requires { Shaped (length q.now) k }
    ensures { result ≡ monitor3_of q.now k }
{
    let tail = 9 + 2 * k.cells + k.flags + k.sensors + k.mosfets;
    Monitor3 {
        status: status_at(q, 0),
        current: signed16(number_at(q, 4)),
        cells: k.cells as u8,
        sensors: k.sensors as u8,
        mosfets: k.mosfets as u8,
        cycles: number_at(q, tail),
        remaining: number_at(q, tail + 2),
        capacity: number_at(q, tail + 4),
        switch: q[tail + 6],
    }
}

// The battery status at the place i.
fn status_at(p: &[u8], i: usize) -> Status
    requires { i + 3 < length p.now }
    ensures { result ≡ status_at p.now i }
{
    Status {
        first: p[i],
        second: p[i + 1],
        third: p[i + 2],
        fourth: p[i + 3],
    }
}

// The number of two bytes at the place i.
fn number_at(p: &[u8], i: usize) -> u16
    requires { i + 1 < length p.now }
    ensures { result ≡ number_at p.now i }
{
    number16(Order::LowFirst, p[i], p[i + 1])
}

// The byte at the place i, 0 past the end.
fn count_at(q: &[u8], i: usize) -> usize
    ensures { (result ≡ get_or q.now i 0) × (result < 256) }
{
    q.get(i).map_or(0, |b| *b as usize)
}
