// Tongzhu's requests, read, for other languages (`tracksaffron` exports it): numbers and slices only, the call safe with any input.
// `specs/Requests.antt` says which number a request goes out as, and at which place of the row each of its values stands.
#![tactic(auto)]

ghost use Rattle.std.specs.Prelude.{◌≡◌, length};
ghost use Rattle.exports_answers.specs.Told.{code_of, row_after};
ghost use Rattle.requests_read_tongzhu.specs.Reading.{parsed_of};
ghost use Rattle.exports_parsed_tongzhu.specs.Requests.{time_numbers, request_told, told_request};

use exports_answers::{put_numbers, told};
use requests_read_tongzhu::read_request;
use requests_tongzhu::Request;
use times_tongzhu::Time;

// Reads a Tongzhu request; its values go to the front of the row.
#[unsafe(no_mangle)]
pub extern "C" fn tracksaffron_tz_parse(s: &[u8], row: &mut [i32]) -> u64
    ensures answer { result ≡ code_of (told_request (parsed_of s.now)) (length row.old) 0 }
    ensures filled { row.new ≡ row_after (told_request (parsed_of s.now)) row.old }
{
    match read_request(s) {
        Ok(q) => put_request(q, row),
        Err(why) => told(why),
    }
}

fn put_request(q: Request, row: &mut [i32]) -> u64
    ensures answer { result ≡ code_of (request_told q) (length row.old) 0 }
    ensures filled { row.new ≡ row_after (request_told q) row.old }
{
    match q {
        Request::Ask(function) => {
            let asked = [function as i32];
            put_numbers(1, &asked, row)
        }
        Request::SetTime(t) => {
            let time = time_numbers(t);
            put_numbers(2, &time, row)
        }
    }
}

fn time_numbers(t: Time) -> [i32; 6]
    ensures { result ≡ time_numbers t }
{
    [
        t.year as i32,
        t.month as i32,
        t.day as i32,
        t.hour as i32,
        t.minute as i32,
        t.second as i32,
    ]
}
