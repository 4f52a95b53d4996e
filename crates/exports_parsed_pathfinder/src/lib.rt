// Pathfinder's requests, read, for other languages (`tracksaffron` exports it): numbers and slices only, the call safe with any input.
// `specs/Requests.antt` says which number a request goes out as, and at which place of the row each of its values stands.
#![tactic(auto)]

ghost use Rattle.std.specs.Prelude.{◌≡◌, length};
ghost use Rattle.requests_read_pathfinder.specs.Reading.{request_of};
ghost use Rattle.exports_answers.specs.Told.{code_of, row_after};
ghost use Rattle.exports_parsed_pathfinder.specs.Requests.{told_fields, told_request};

use exports_answers::{put_numbers, told};
use requests_pathfinder::Request;
use requests_read_pathfinder::read_request;

// Reads a Pathfinder request; its opcode, or the register and the value that it sets, go to the front of the row.
#[unsafe(no_mangle)]
pub extern "C" fn tracksaffron_pf_parse(s: &[u8], row: &mut [i32]) -> u64
    ensures answer { result ≡ code_of (told_request (request_of s.now)) (length row.old) 0 }
    ensures filled { row.new ≡ row_after (told_request (request_of s.now)) row.old }
{
    match read_request(s) {
        Ok(q) => tell_fields(q, row),
        Err(why) => told(why),
    }
}

fn tell_fields(q: Request, row: &mut [i32]) -> u64
    ensures answer { result ≡ code_of (told_fields q) (length row.old) 0 }
    ensures filled { row.new ≡ row_after (told_fields q) row.old }
{
    match q {
        Request::Ask(opcode) => {
            let numbers = [opcode as i32];
            put_numbers(1, &numbers, row)
        }
        Request::Write { register, value } => {
            let numbers = [register as i32, value];
            put_numbers(2, &numbers, row)
        }
    }
}
