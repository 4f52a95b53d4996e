// The lists of a Tongzhu monitor 3 in a row of numbers, for the console, C and Rust alike: each goes from the payload straight into its
// places (docs/DECISIONS.md, Tongzhu). `specs/Lists.antt` says at which place each list begins.
#![tactic(auto)]

ghost use Rattle.std.specs.Prelude.{◌≡◌, ◌+◌, ◌*◌, ◌≤◌, pos, length, get_or, drop, replicate};
ghost use Rattle.exports_parts.specs.Parts.{fit_code};
ghost use Rattle.monitor3_tongzhu.specs.Values.{number_at, temperature_at, places_of};
ghost use Rattle.monitor3_tongzhu.specs.Layout.{lists_at};
ghost use Rattle.lists_tongzhu.specs.Lists.{placed_lists, listed};

use monitor3_tongzhu::find_lists;
use numbers::{Order, number16};
use refusals::Refusal;
use signs::signed8;

// Puts the lists of a monitor 3 with this payload into the row, behind the places of its numbers; where the row has fewer than 80 places it
// stays as it was, and is refused.
#[tactic(auto, unfolding(exports_parts::specs::Parts::fit_code, crate::specs::Lists::listed))]
pub fn put_lists(p: &[u8], row: &mut [i32]) -> Result<(), Refusal>
    ensures answer { result ≡ fit_code 12 68 (length row.old) }
    ensures filled { row.new ≡ listed (lists_at p.now 0) row.old }
{
    if row.len() < 80 {
        return Err(Refusal::Room);
    }
    fill(p, row);
    Ok(())
}

#[tactic(auto, using(monitor3_tongzhu::proofs::Shapes::places_within, crate::proofs::Filled::part_room), unfolding(monitor3_tongzhu::specs::Layout::lists_in))]
fn fill(p: &[u8], row: &mut [i32])
    requires { 80 ≤ length row.old }
    ensures { row.new ≡ placed_lists (lists_at p.now 0) row.old }
{
    let w = find_lists(p, 0);
    put_voltages(p, w.cells_from, w.cells, &mut row[12..44]);
    put_flags(p, w.balance_from, w.balance, &mut row[44..48]);
    put_temperatures(p, w.sensors_from, w.sensors, &mut row[48..64]);
    put_temperatures(p, w.mosfets_from, w.mosfets, &mut row[64..80]);
}

// n voltages from the place `from` on, 0 past them.
#[tactic(auto, unfolding(laws::specs::Firsts::firsts))]
fn put_voltages(p: &[u8], from: usize, n: usize, row: &mut [i32])
    requires { (n ≤ length row.old) × (from + 2 * n ≤ length p.now) }
    ensures { row.new ≡ places_of (length row.old) (pos 0) (λ i. pos (number_at p.now (from + 2 * i))) n }
{
    clear_past(n, row);
    for (i, cell) in row[..n].iter_mut().enumerate() {
        *cell = i32::from(number16(Order::LowFirst, p[from + 2 * i], p[from + 2 * i + 1]));
    }
}

// n bytes of the balanced state from the place `from` on, 0 past them.
#[tactic(auto, unfolding(laws::specs::Firsts::firsts))]
fn put_flags(p: &[u8], from: usize, n: usize, row: &mut [i32])
    requires { (n ≤ length row.old) × (from + n ≤ length p.now) }
    ensures { row.new ≡ places_of (length row.old) (pos 0) (λ i. pos (get_or p.now (from + i) 0)) n }
{
    clear_past(n, row);
    for (i, flags) in row[..n].iter_mut().enumerate() {
        *flags = i32::from(p[from + i]);
    }
}

// n temperatures from the place `from` on, 0 past them.
#[tactic(auto, unfolding(laws::specs::Firsts::firsts))]
fn put_temperatures(p: &[u8], from: usize, n: usize, row: &mut [i32])
    requires { (n ≤ length row.old) × (from + n ≤ length p.now) }
    ensures { row.new ≡ places_of (length row.old) (pos 0) (λ i. temperature_at p.now (from + i)) n }
{
    clear_past(n, row);
    for (i, temperature) in row[..n].iter_mut().enumerate() {
        *temperature = i32::from(signed8(p[from + i]));
    }
}

// Leaves 0 in the places past the first n; where there are none, nothing has to be written.
fn clear_past(n: usize, row: &mut [i32])
    requires { n ≤ length row.old }
    ensures { (length row.new ≡ length row.old) × (drop n row.new ≡ drop n (replicate (length row.old) (pos 0))) }
{
    if n < row.len() {
        row.fill(0);
    }
}
