// The lists of Tongzhu's function 12 (002, 6.1.3; 01, Tongzhu) as arrays by value, places past a count 0. `monitor3_tongzhu` says where they lie.
#![tactic(auto)]

ghost use Rattle.std.specs.Prelude.{◌≡◌, ◌+◌, ◌*◌, ◌≤◌, length, get_or, pos};
ghost use Rattle.monitor3_tongzhu.specs.Values.{number_at, temperature_at, places_of};
ghost use Rattle.monitor3_tongzhu.specs.Layout.{Within, no_lists, lists_in, lists_at};

use monitor3_tongzhu::{Lists, Places, find_lists};
use numbers::{Order, number16};
use signs::signed8;

// Reads the lists of the fields of function 12 that take all of a payload from the place `at` on; where the fields are of the wrong shape, all are 0.
#[tactic(auto, using(monitor3_tongzhu::proofs::Shapes::places_within))]
pub fn read_lists(p: &[u8], at: usize) -> Lists
    ensures { result ≡ lists_at p.now at }
{
    lists_in(p, find_lists(p, at))
}

#[tactic(auto, unfolding(monitor3_tongzhu::specs::Layout::lists_in))]
fn lists_in(p: &[u8], w: Places) -> Lists
    requires { Within (length p.now) w }
    ensures { result ≡ lists_in p.now w }
{
    Lists {
        cells: cells_of(p, w.cells_from, w.cells),
        balance: flags_of(p, w.balance_from, w.balance),
        sensors: temperatures_of(p, w.sensors_from, w.sensors),
        mosfets: temperatures_of(p, w.mosfets_from, w.mosfets),
    }
}

pub fn no_lists() -> Lists
    ensures { result ≡ no_lists }
{
    Lists {
        cells: [0u16; 32],
        balance: [0u8; 4],
        sensors: [0i8; 16],
        mosfets: [0i8; 16],
    }
}

// n cell voltages from the place `from` on.
#[tactic(auto, unfolding(laws::specs::Firsts::firsts))]
fn cells_of(q: &[u8], from: usize, n: usize) -> [u16; 32]
    requires { (n ≤ 32) × (from + 2 * n ≤ length q.now) }
    ensures { result ≡ places_of 32 0 (λ i. number_at q.now (from + 2 * i)) n }
{
    let mut a = [0u16; 32];
    for (i, cell) in a[..n].iter_mut().enumerate() {
        let at = from + 2 * i;
        *cell = number16(Order::LowFirst, q[at], q[at + 1]);
    }
    a
}

// n bytes of the balanced state from the place `from` on.
fn flags_of(q: &[u8], from: usize, n: usize) -> [u8; 4]
    requires { (n ≤ 4) × (from + n ≤ length q.now) }
    ensures { result ≡ places_of 4 0 (λ i. get_or q.now (from + i) 0) n }
{
    let mut a = [0u8; 4];
    a[..n].copy_from_slice(&q[from..from + n]);
    a
}

// n temperatures from the place `from` on.
#[tactic(auto, unfolding(laws::specs::Firsts::firsts))]
fn temperatures_of(q: &[u8], from: usize, n: usize) -> [i8; 16]
    requires { (n ≤ 16) × (from + n ≤ length q.now) }
    ensures { result ≡ places_of 16 (pos 0) (λ i. temperature_at q.now (from + i)) n }
{
    let mut a = [0i8; 16];
    for (i, temperature) in a[..n].iter_mut().enumerate() {
        *temperature = signed8(q[from + i]);
    }
    a
}
