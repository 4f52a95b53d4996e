// Pathfinder's replies for other languages, and the search for one (`tracksaffron` exports it): numbers and slices only, each call
// safe with any input.
// An answer that is an enum goes out as one number: `specs/Codes.antt` says which.
#![tactic(auto)]

ghost use Rattle.std.specs.Prelude.{◌≡◌, [], ◌∷◌, length};
ghost use Rattle.records_pathfinder.specs.Replies.{reply_of, row_after, name_after};
ghost use Rattle.search_pathfinder.specs.Places.{search_of};
ghost use Rattle.exports_answers.specs.Told.{room_code, over};
ghost use Rattle.exports_pathfinder.specs.Codes.{reply_code, found_code, found_after};

use exports_answers::{coded, told};
use records_pathfinder::{Reply, read_reply};
use refusals::Refusal;
use search_pathfinder::{Found, find};

// Reads the reply to the Pathfinder request `asked`.
#[unsafe(no_mangle)]
pub extern "C" fn tracksaffron_pf_read(asked: u8, s: &[u8], row: &mut [i32], name: &mut [u8]) -> u64
    ensures answer { result ≡ reply_code (reply_of asked (length row.old) (length name.old) s.now) }
    ensures filled { row.new ≡ row_after (reply_of asked (length row.old) (length name.old) s.now) s.now row.old }
    ensures copied { name.new ≡ name_after (reply_of asked (length row.old) (length name.old) s.now) s.now name.old }
{
    reply_number(read_reply(asked, s, row, name))
}

// The first Pathfinder frame in the bytes: its place goes to the first place of `found`, its whole length to the second.
#[unsafe(no_mangle)]
pub extern "C" fn tracksaffron_pf_find(s: &[u8], found: &mut [usize]) -> u64
    ensures answer { result ≡ found_code (search_of s.now) (length found.old) }
    ensures filled { found.new ≡ found_after (search_of s.now) found.old }
{
    match find(s) {
        Some(frame) => put_found(frame, found),
        None => coded(2, 0),
    }
}

fn reply_number(answer: Result<Reply, Refusal>) -> u64
    ensures { result ≡ reply_code answer }
{
    match answer {
        Ok(Reply::Words(n)) => coded(1, n),
        Ok(Reply::Name(n)) => coded(2, n),
        Ok(Reply::Written) => coded(3, 0),
        Ok(Reply::Failure(code)) => coded(4, code as usize),
        Err(why) => told(why),
    }
}

#[tactic(auto, unfolding(exports_answers::specs::Told::over))]
fn put_found(frame: Found, found: &mut [usize]) -> u64
    ensures answer { result ≡ room_code 1 2 (length found.old) }
    ensures filled { found.new ≡ over (frame.place ∷ frame.len ∷ []) found.old }
{
    if found.len() < 2 {
        return told(Refusal::Room);
    }
    found[..2].copy_from_slice(&[frame.place, frame.len]);
    coded(1, 2)
}
