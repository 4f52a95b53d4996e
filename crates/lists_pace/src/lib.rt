// Lists of bytes and numbers from PACE characters (01, PACE), read into a lent row. What they are is said in `characters_pace`, as one byte and one
// number are.
#![tactic(auto)]

ghost use Rattle.std.specs.Prelude.{◌≡◌, length};
ghost use Rattle.characters_pace.specs.Characters.{bytes_in, bytes_at, words_at};

use characters_pace::{byte_of, word_of};

// Fills the row with the bytes from place `at` on.
pub fn bytes_of(s: &[u8], at: u8, row: &mut [u8])
    ensures { row.new ≡ bytes_at at (length row.old) (bytes_in s.now) }
{
    let from = at as usize;
    for (i, place) in row.iter_mut().enumerate() {
        *place = byte_of(s, from + i);
    }
}

// Fills the row with the numbers of two bytes from place `at` on.
pub fn words_of(s: &[u8], at: u8, row: &mut [u16])
    ensures { row.new ≡ words_at at (length row.old) (bytes_in s.now) }
{
    let from = at as usize;
    for (i, place) in row.iter_mut().enumerate() {
        *place = word_of(s, from + 2 * i);
    }
}
