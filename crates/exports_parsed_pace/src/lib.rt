// PACE's requests, read, for other languages (`tracksaffron` exports it): numbers and slices only, the call safe with any input.
// `specs/Requests.antt` says which number a request goes out as, and at which place of the row each of its values stands.
#![tactic(auto)]

ghost use Rattle.std.specs.Prelude.{◌≡◌, length};
ghost use Rattle.exports_answers.specs.Told.{code_of, row_after};
ghost use Rattle.requests_read_pace.specs.Parsed.{parsed_of};
ghost use Rattle.exports_parsed_pace.specs.Requests.{set_told, request_told, told_request};

use exports_answers::{put_numbers, told};
use layouts_pace::Values;
use requests_pace::Request;
use requests_read_pace::read_request;

// Reads a PACE request; its values go to the front of the row.
#[unsafe(no_mangle)]
pub extern "C" fn tracksaffron_pace_parse(s: &[u8], row: &mut [i32]) -> u64
    ensures answer { result ≡ code_of (told_request (parsed_of s.now)) (length row.old) 0 }
    ensures filled { row.new ≡ row_after (told_request (parsed_of s.now)) row.old }
{
    match read_request(s) {
        Ok(q) => put_request(q, row),
        Err(why) => told(why),
    }
}

fn put_request(q: Request, row: &mut [i32]) -> u64
    ensures answer { result ≡ code_of (request_told q) (length row.old) 0 }
    ensures filled { row.new ≡ row_after (request_told q) row.old }
{
    match q {
        Request::Ask { address, command } => {
            let numbers = [address as i32, command as i32];
            put_numbers(1, &numbers, row)
        }
        Request::Set { address, values } => put_set(address, values, row),
    }
}

// The values that a request sets, behind its address.
fn put_set(address: u8, values: Values, row: &mut [i32]) -> u64
    ensures answer { result ≡ code_of (set_told address values) (length row.old) 0 }
    ensures filled { row.new ≡ row_after (set_told address values) row.old }
{
    match values {
        Values::CellOvervoltage {
            alarm_mv,
            protect_mv,
            release_mv,
            delay_100ms,
        } => {
            let numbers = [
                address as i32,
                alarm_mv as i32,
                protect_mv as i32,
                release_mv as i32,
                delay_100ms as i32,
            ];
            put_numbers(2, &numbers, row)
        }
        Values::SlowDischarge {
            alarm_a,
            protect_a,
            delay_100ms,
        } => {
            let numbers = [
                address as i32,
                alarm_a as i32,
                protect_a as i32,
                delay_100ms as i32,
            ];
            put_numbers(3, &numbers, row)
        }
    }
}
