// What `exports_parsed_pathfinder` answers, for C.
ghost use Rattle.std.specs.Prelude.{◌≡◌, length};
ghost use Rattle.requests_read_pathfinder.specs.Reading.{request_of};
ghost use Rattle.exports_answers.specs.Told.{code_of, row_after};
ghost use Rattle.exports_parsed_pathfinder.specs.Requests.{told_request};

// Reads a Pathfinder request; its opcode, or the register and the value that it sets, go to the front of the row.
#[unsafe(no_mangle)]
pub extern "C" fn tracksaffron_pf_parse(s: &[u8], row: &mut [i32]) -> u64
    ensures answer { result ≡ code_of (told_request (request_of s.now)) (length row.old) 0 }
    ensures filled { row.new ≡ row_after (told_request (request_of s.now)) row.old }
{
    exports_parsed_pathfinder::tracksaffron_pf_parse(s, row)
}
