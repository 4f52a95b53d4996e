// Tongzhu records as rows of numbers, for the console, C and Rust alike: `specs/Numbers.antt` says at which place each value stands.
#![tactic(auto)]

ghost use Rattle.std.specs.Prelude.{◌≡◌};
ghost use Rattle.flat_tongzhu.specs.Numbers.{status_numbers, monitor2_numbers, monitor3_numbers};

use monitor3_tongzhu::{Monitor3, Status};
use payloads_tongzhu::Monitor2;

pub fn status_numbers(status: Status) -> [i32; 4]
    ensures { result ≡ status_numbers status }
{
    [
        status.first as i32,
        status.second as i32,
        status.third as i32,
        status.fourth as i32,
    ]
}

pub fn monitor2_numbers(m: Monitor2) -> [i32; 14]
    ensures { result ≡ monitor2_numbers m }
{
    let s = m.status;
    [
        s.first as i32,
        s.second as i32,
        s.third as i32,
        s.fourth as i32,
        m.current as i32,
        m.highest as i32,
        m.lowest as i32,
        m.total as i32,
        m.hottest as i32,
        m.coldest as i32,
        m.cycles as i32,
        m.remaining as i32,
        m.capacity as i32,
        m.switch as i32,
    ]
}

// The numbers of a monitor 3 in front of its lists.
pub fn monitor3_numbers(m: Monitor3) -> [i32; 12]
    ensures { result ≡ monitor3_numbers m }
{
    let s = m.status;
    [
        s.first as i32,
        s.second as i32,
        s.third as i32,
        s.fourth as i32,
        m.current as i32,
        m.cells as i32,
        m.sensors as i32,
        m.mosfets as i32,
        m.cycles as i32,
        m.remaining as i32,
        m.capacity as i32,
        m.switch as i32,
    ]
}
