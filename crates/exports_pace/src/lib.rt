// PACE's replies for other languages (`tracksaffron` exports it): numbers and slices only, each call safe with any input.
// `specs/Replies.antt` says which number an answer goes out as, and at which place of the row each of its values stands.
#![tactic(auto)]

ghost use Rattle.std.specs.Prelude.{◌≡◌, length, take};
ghost use Rattle.records_pace.specs.Reply.{reply_of};
ghost use Rattle.exports_answers.specs.Told.{code_of, row_after, text_after, room_code, over};
ghost use Rattle.exports_pace.specs.Replies.{analog_numbers, analog_all, warning_numbers, warning_all, values_told, told_as, told_of};

use analog_pace::Analog;
use exports_answers::{coded, put_numbers, put_text, told};
use exports_parts::put;
use layouts_pace::Values;
use payloads_pace::Answer;
use records_pace::read_reply;
use refusals::Refusal;
use warnings_pace::Warnings;

// How many numbers the analog information and the warnings have, with their lists.
const ANALOG: usize = 32;

const WARNINGS: usize = 38;

// Reads the reply to the PACE command asked of this address; its values go to the front of the row, its text to the front of the bytes.
#[unsafe(no_mangle)]
pub extern "C" fn tracksaffron_pace_read(
    address: u8,
    asked: u8,
    s: &[u8],
    row: &mut [i32],
    text: &mut [u8],
) -> u64
    ensures answer { result ≡ code_of (told_of (reply_of address asked s.now)) (length row.old) (length text.old) }
    ensures filled { row.new ≡ row_after (told_of (reply_of address asked s.now)) row.old }
    ensures copied { text.new ≡ text_after (told_of (reply_of address asked s.now)) text.old }
{
    match read_reply(address, asked, s) {
        Ok(answer) => tell(answer, row, text),
        Err(why) => told(why),
    }
}

fn tell(answer: Answer, row: &mut [i32], text: &mut [u8]) -> u64
    ensures answer { result ≡ code_of (told_as answer) (length row.old) (length text.old) }
    ensures filled { row.new ≡ row_after (told_as answer) row.old }
    ensures copied { text.new ≡ text_after (told_as answer) text.old }
{
    match answer {
        Answer::Analog(reading) => put_analog(reading, row),
        Answer::Warnings(reading) => put_warnings(reading, row),
        Answer::Hardware(letters) => put_text(3, &letters, text),
        Answer::Serial { text: letters, len } => put_letters(4, len, letters, text),
        Answer::Setting(v) => put_values(v, row),
        Answer::Accepted => coded(7, 0),
        Answer::DeviceFailure(code) => coded(8, code as usize),
    }
}

// The first n letters; all of them where there are fewer.
fn put_letters(kind: u8, n: u8, letters: [u8; 40], text: &mut [u8]) -> u64
    ensures answer { result ≡ room_code kind (length (take n letters)) (length text.old) }
    ensures copied { text.new ≡ over (take n letters) text.old }
{
    if n < 40 {
        let end = n as usize;
        return put_text(kind, &letters[0..end], text);
    }
    put_text(kind, &letters, text)
}

// The values of a setting.
fn put_values(v: Values, row: &mut [i32]) -> u64
    ensures answer { result ≡ code_of (values_told v) (length row.old) 0 }
    ensures filled { row.new ≡ row_after (values_told v) row.old }
{
    match v {
        Values::CellOvervoltage {
            alarm_mv,
            protect_mv,
            release_mv,
            delay_100ms,
        } => {
            let numbers = [
                alarm_mv as i32,
                protect_mv as i32,
                release_mv as i32,
                delay_100ms as i32,
            ];
            put_numbers(5, &numbers, row)
        }
        Values::SlowDischarge {
            alarm_a,
            protect_a,
            delay_100ms,
        } => {
            let numbers = [alarm_a as i32, protect_a as i32, delay_100ms as i32];
            put_numbers(6, &numbers, row)
        }
    }
}

fn put_analog(r: analog_pace::Reading, row: &mut [i32]) -> u64
    ensures answer { result ≡ room_code 1 (length (analog_all r.numbers r.cells r.temperatures)) (length row.old) }
    ensures filled { row.new ≡ over (analog_all r.numbers r.cells r.temperatures) row.old }
{
    if row.len() < ANALOG {
        return told(Refusal::Room);
    }
    let _ = put(&analog_numbers(r.numbers), 0, row);
    let _ = put(&r.cells, 8, row);
    let _ = put(&r.temperatures, 24, row);
    coded(1, ANALOG)
}

fn analog_numbers(a: Analog) -> [i32; 8]
    ensures { result ≡ analog_numbers a }
{
    [
        a.cells as i32,
        a.temperatures as i32,
        a.current_10ma as i32,
        a.total_mv as i32,
        a.remaining_10mah as i32,
        a.full_10mah as i32,
        a.cycles as i32,
        a.design_10mah as i32,
    ]
}

fn put_warnings(r: warnings_pace::Reading, row: &mut [i32]) -> u64
    ensures answer { result ≡ room_code 2 (length (warning_all r.status r.cells r.temperatures)) (length row.old) }
    ensures filled { row.new ≡ over (warning_all r.status r.cells r.temperatures) row.old }
{
    if row.len() < WARNINGS {
        return told(Refusal::Room);
    }
    let _ = put(&warning_numbers(r.status), 0, row);
    let _ = put(&r.cells, 14, row);
    let _ = put(&r.temperatures, 30, row);
    coded(2, WARNINGS)
}

fn warning_numbers(w: Warnings) -> [i32; 14]
    ensures { result ≡ warning_numbers w }
{
    [
        w.cells as i32,
        w.temperatures as i32,
        w.charge_current as i32,
        w.total_voltage as i32,
        w.discharge_current as i32,
        w.protection1 as i32,
        w.protection2 as i32,
        w.system as i32,
        w.configuration as i32,
        w.fault as i32,
        w.balance_high as i32,
        w.balance_low as i32,
        w.warning1 as i32,
        w.warning2 as i32,
    ]
}
