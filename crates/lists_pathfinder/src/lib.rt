// Words one after the other, four bytes for each (000, Serial message format): read into a lent row, and put at the front of a lent room. What one
// word is stands in `words_pathfinder`.
#![tactic(auto)]

ghost use Rattle.std.specs.Prelude.{◌≡◌, ◌++◌, ◌+◌, ◌*◌, ◌≤◌, length, drop};
ghost use Rattle.lists_pathfinder.specs.Lists.{words, bytes_of_words, read_fault, row_read, put_fault, bytes_put, one_at};

use refusals::Refusal;
use words_pathfinder::{word, word_bytes};

// Fills the row with the words that the bytes are, all of them. Where they are not as many it is refused with 8, and the row keeps its contents.
pub fn read_words(s: &[u8], row: &mut [i32]) -> Result<(), Refusal>
    ensures answer { result ≡ read_fault s.now row.old }
    ensures filled { row.new ≡ row_read s.now row.old }
{
    if s.len() % 4 != 0 || s.len() / 4 != row.len() {
        return Err(Refusal::Shape);
    }
    fill(s, row);
    Ok(())
}

// Puts the bytes of the words at the front of the room. Where it is too small it is refused with 11, and keeps its contents.
pub fn put_words(row: &[i32], out: &mut [u8]) -> Result<(), Refusal>
    ensures answer { result ≡ put_fault row.now out.old }
    ensures filled { out.new ≡ bytes_put row.now out.old }
{
    if out.len() / 4 < row.len() {
        return Err(Refusal::Room);
    }
    put_all(row, out);
    Ok(())
}

fn fill(s: &[u8], row: &mut [i32])
    requires { 4 * length row.old ≤ length s.now }
    ensures { row.new ≡ words (length row.old) s.now }
{
    for (i, place) in row.iter_mut().enumerate() {
        let at = 4 * i;
        *place = word(s[at], s[at + 1], s[at + 2], s[at + 3]);
    }
}

fn put_all(row: &[i32], out: &mut [u8])
    requires { 4 * length row.now ≤ length out.old }
    ensures { out.new ≡ bytes_of_words row.now ++ drop (4 * length row.now) out.old }
{
    for (i, v) in row.iter().enumerate() {
        put_at(*v, 4 * i, out);
    }
}

// One word in the place of four bytes.
fn put_at(v: i32, at: usize, out: &mut [u8])
    requires { at + 4 ≤ length out.old }
    ensures { out.new ≡ one_at v at out.old }
{
    out[at..at + 4].copy_from_slice(&word_bytes(v));
}
