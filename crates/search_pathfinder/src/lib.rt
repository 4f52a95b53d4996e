// The search for a Pathfinder frame among log text (000, Serial message format: logs are streamed on the same port; 01, Pathfinder).
#![tactic(auto)]

ghost use Rattle.std.specs.Prelude.{◌≡◌, ◌+◌, ◌-◌, ◌<◌, ◌≤◌, length, get_or};
ghost use Rattle.search_pathfinder.specs.Places.{span_of, scan, search_of};

use checks::crc_step;
use numbers::{Order, number16};

// The smallest place of a frame, and its total length.
#[derive(Clone, Copy, Debug, PartialEq, Eq)]
pub struct Found {
    pub place: usize,
    pub len: usize,
}

// Looks at each place that has a mark for the bytes of a frame; the first that has them ends the search.
pub fn find(s: &[u8]) -> Option<Found>
    ensures { result ≡ search_of s.now }
{
    let mut i = 0;
    // The indices are counted by hand and a span of 0 bytes is none: of 64 KiB of start marks the search takes 95 µs so, and 148 to 152 µs with `for` over
    // places and bytes, where plain Rust takes 108 (bench/run on x86-64), so that `for` misses the mark of 0.9. An Option of a span takes more.
    'places: loop {
        i = mark_from(s, i);
        if s.len() < i + 6 {
            break 'places None;
        }
        let n = span(s, i);
        let mut sum = 0;
        let mut k = 0;
        while k < n {
            sum = crc_step(sum, s[i + 1 + k]);
            k += 1;
            if k == n {
                if sum == number16(Order::HighFirst, s[i + 1 + n], s[i + 2 + n]) {
                    break 'places Some(Found {
                        place: i,
                        len: n + 4,
                    });
                }
            }
        }
        i += 1; // no frame at this mark
    }
}

// The first place from this one on that has a start mark, or the end; the places passed have no frame. It goes by itself, so that log text costs one test a byte.
fn mark_from(s: &[u8], from: usize) -> usize
    requires { from + 6 ≤ 18446744073709551615 }
    ensures { (result + 6 ≤ 18446744073709551615) × (from ≤ result) × (result < length s.now → get_or s.now result 0 ≡ 0xFE) × (scan (length s.now - from) from s.now ≡ scan (length s.now - result) result s.now) }
{
    let mut i = from;
    // By hand for the same reason.
    while i < s.len() {
        if s[i] == 0xFE {
            return i;
        }
        i += 1;
    }
    i
}

// How many bytes the checksum of a frame at a mark would cover, by length and end mark; 0 where they are wrong.
fn span(s: &[u8], i: usize) -> usize
    requires { (i + 6 ≤ length s.now) × (get_or s.now i 0 ≡ 0xFE) }
    ensures { (result ≡ span_of s.now i) × (result ≤ length s.now - (i + 4)) }
{
    let n = s[i + 1] as usize;
    if n == 0 {
        return 0;
    }
    if s.len() < i + n + 5 {
        return 0;
    }
    if s[i + n + 4] != 0xFD {
        return 0;
    }
    n + 1
}
