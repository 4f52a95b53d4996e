// Tongzhu's replies for other languages (`tracksaffron` exports it): numbers and slices only, each call safe with any input.
// `specs/Replies.antt` says which number an answer goes out as, and at which place of the row each of its values stands.
#![tactic(auto)]

ghost use Rattle.std.specs.Prelude.{◌≡◌, [], ◌∷◌, length};
ghost use Rattle.monitor3_tongzhu.specs.Layout.{found_at, lists_at};
ghost use Rattle.payloads_tongzhu.specs.Payloads.{answer_in};
ghost use Rattle.records_tongzhu.specs.Replies.{answer_to, lists_beside, reply_of};
ghost use Rattle.flat_tongzhu.specs.Numbers.{status_numbers, monitor2_numbers};
ghost use Rattle.exports_answers.specs.Told.{code_of, row_after, room_code, over};
ghost use Rattle.exports_tongzhu.specs.Replies.{all_numbers, told_as, told_in, told_of};

use exports_answers::{coded, put_numbers, told};
use exports_parts::put;
use flat_tongzhu::{monitor2_numbers, monitor3_numbers, status_numbers};
use frames_tongzhu::read_frame;
use lists_tongzhu::put_lists;
use monitor3_tongzhu::{Monitor3, Status, read_numbers};
use payloads_tongzhu::{Answer, Monitor2};
use records_tongzhu::answer_to;
use refusals::Refusal;

// How many numbers a monitor 3 has: its own, then 32 cells, 4 bytes of balance, 16 sensors and 16 MOSFET sensors.
const MONITOR3: usize = 80;

// Reads the reply to the Tongzhu function `asked`; its values go to the front of the row.
#[unsafe(no_mangle)]
#[tactic(auto, using(frames_tongzhu::proofs::Ladder::whole_parts, frames_tongzhu::proofs::Ladder::payload_part, exports_answers::proofs::Telling::told_refused), unfolding(records_tongzhu::specs::Replies::reply_of))]
pub extern "C" fn tracksaffron_tz_read(asked: u8, s: &[u8], row: &mut [i32]) -> u64
    ensures answer { result ≡ code_of (told_of (reply_of asked s.now)) (length row.old) 0 }
    ensures filled { row.new ≡ row_after (told_of (reply_of asked s.now)) row.old }
{
    match read_frame(s) {
        Ok(f) => tell_payload(asked, f.function, &s[f.start..f.start + f.len], row),
        Err(why) => told(why),
    }
}

// What a whole frame answers. A monitor 3, the longest reply, goes its own way: the answers to all functions would share its registers.
#[tactic(auto, unfolding(records_tongzhu::specs::Replies::answer_to, functions_tongzhu::specs::Functions::kind_of, payloads_tongzhu::specs::Payloads::payload_of))]
fn tell_payload(asked: u8, function: u8, p: &[u8], row: &mut [i32]) -> u64
    ensures answer { result ≡ code_of (told_in (answer_to asked function p.now) p.now) (length row.old) 0 }
    ensures filled { row.new ≡ row_after (told_in (answer_to asked function p.now) p.now) row.old }
{
    if asked == 0x12 && function == 0x12 {
        return tell_monitor3(p, row);
    }
    match answer_to(asked, function, p) {
        Ok(answer) => tell(answer, p, row),
        Err(why) => told(why),
    }
}

fn tell_monitor3(p: &[u8], row: &mut [i32]) -> u64
    ensures answer { result ≡ code_of (told_in (answer_in (found_at p.now 0)) p.now) (length row.old) 0 }
    ensures filled { row.new ≡ row_after (told_in (answer_in (found_at p.now 0)) p.now) row.old }
{
    match read_numbers(p, 0) {
        Ok(m) => put_monitor3(m, p, row),
        Err(why) => told(why),
    }
}

fn tell(answer: Answer, p: &[u8], row: &mut [i32]) -> u64
    ensures answer { result ≡ code_of (told_as answer (lists_beside answer p.now)) (length row.old) 0 }
    ensures filled { row.new ≡ row_after (told_as answer (lists_beside answer p.now)) row.old }
{
    match answer {
        Answer::Monitor2(m) => put_monitor2(m, row),
        Answer::Monitor3(m) => put_monitor3(m, p, row),
        Answer::Status(s) => put_status(s, row),
        Answer::Current(v) => put_current(v, row),
        Answer::Done => coded(5, 0),
        Answer::NotDone => coded(6, 0),
        Answer::DeviceError => coded(7, 0),
    }
}

fn put_monitor2(m: Monitor2, row: &mut [i32]) -> u64
    ensures answer { result ≡ room_code 1 (length (monitor2_numbers m)) (length row.old) }
    ensures filled { row.new ≡ over (monitor2_numbers m) row.old }
{
    let numbers = monitor2_numbers(m);
    put_numbers(1, &numbers, row)
}

fn put_status(s: Status, row: &mut [i32]) -> u64
    ensures answer { result ≡ room_code 3 (length (status_numbers s)) (length row.old) }
    ensures filled { row.new ≡ over (status_numbers s) row.old }
{
    let numbers = status_numbers(s);
    put_numbers(3, &numbers, row)
}

fn put_current(v: i16, row: &mut [i32]) -> u64
    ensures answer { result ≡ room_code 4 1 (length row.old) }
    ensures filled { row.new ≡ over (v ∷ []) row.old }
{
    let numbers = [v as i32];
    put_numbers(4, &numbers, row)
}

#[tactic(auto, unfolding(exports_parts::specs::Parts::fit_code))]
fn put_monitor3(m: Monitor3, p: &[u8], row: &mut [i32]) -> u64
    ensures answer { result ≡ room_code 2 (length (all_numbers m (lists_at p.now 0))) (length row.old) }
    ensures filled { row.new ≡ over (all_numbers m (lists_at p.now 0)) row.old }
{
    if row.len() < MONITOR3 {
        return told(Refusal::Room);
    }
    let numbers = monitor3_numbers(m);
    put(&numbers, 0, row).unwrap();
    put_lists(p, row).unwrap();
    coded(2, MONITOR3)
}
