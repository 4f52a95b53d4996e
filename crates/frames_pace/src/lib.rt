// PACE frames (004; 01, PACE): ~, then upper-case hex: version 25, address, CID1 46, command (a return code in a reply),
// LENGTH, INFO, CHKSUM, then carriage return. `frames_written_pace` writes them.
#![tactic(auto)]

ghost use Rattle.std.specs.Prelude.{◌≡◌, ◌&&◌, eqb, get_or};
ghost use Rattle.lengths_pace.specs.Lengths.{count_of};
ghost use Rattle.characters_pace.specs.Characters.{bytes_in, word_at};
ghost use Rattle.frames_pace.specs.Frame.{counts, frame_of};

use characters_pace::{byte_of, word_of};
use faults_pace::all_hex;
use lengths_pace::length_count;
use orders::pace_frame;
use refusals::Refusal;
use sums::closes65536;

pub const VERSION: u8 = 0x25;

pub const CID1: u8 = 0x46;

pub const FIRST: u8 = 0x7E;

pub const LAST: u8 = 0x0D;

// A whole frame: where its INFO starts and how many characters it has. In a reply the command is a return code.
#[derive(Clone, Copy, Debug, PartialEq, Eq)]
pub struct Frame {
    pub address: u8,
    pub command: u8,
    pub start: usize,
    pub len: usize,
}

// The frame that the characters are, or why they are none. The address is the caller's to compare.
pub fn read_frame(s: &[u8]) -> Result<Frame, Refusal>
    ensures { result ≡ frame_of s.now }
{
    let n = s.len();
    if n < 18 {
        return Err(Refusal::Short);
    }
    // Of 18 characters or more every test can be made, whatever the others say.
    let head = &s[1..13];
    let starts = s[0] == FIRST;
    let ends = s[n - 1] == LAST;
    let hex = all_hex(&s[1..n - 1]);
    let fits = has_count(head, n - 18);
    let closes = closes65536(&s[1..n - 5], word_of(&s[n - 5..n - 1], 0));
    let known = is_known(head);
    pace_frame(starts, ends, hex, fits, closes, known)?;
    Ok(Frame {
        address: byte_of(head, 1),
        command: byte_of(head, 3),
        start: 13,
        len: n - 18,
    })
}

// Whether LENGTH, after the header's first four bytes, has its right digit and counts so many characters.
fn has_count(head: &[u8], len: usize) -> bool
    ensures { result ≡ counts (count_of (word_at (bytes_in head.now) 4)) len }
{
    length_count(word_of(head, 4)).is_some_and(|count| count as usize == len)
}

// Whether the version is 25 and CID1 46.
fn is_known(head: &[u8]) -> bool
    ensures { result ≡ (eqb (get_or (bytes_in head.now) 0 0) 0x25 && eqb (get_or (bytes_in head.now) 2 0) 0x46) }
{
    byte_of(head, 0) == VERSION && byte_of(head, 2) == CID1
}
