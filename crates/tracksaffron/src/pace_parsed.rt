// What `exports_parsed_pace` answers, for C.
ghost use Rattle.std.specs.Prelude.{◌≡◌, length};
ghost use Rattle.exports_answers.specs.Told.{code_of, row_after};
ghost use Rattle.requests_read_pace.specs.Parsed.{parsed_of};
ghost use Rattle.exports_parsed_pace.specs.Requests.{told_request};

// Reads a PACE request; its values go to the front of the row.
#[unsafe(no_mangle)]
pub extern "C" fn tracksaffron_pace_parse(s: &[u8], row: &mut [i32]) -> u64
    ensures answer { result ≡ code_of (told_request (parsed_of s.now)) (length row.old) 0 }
    ensures filled { row.new ≡ row_after (told_request (parsed_of s.now)) row.old }
{
    exports_parsed_pace::tracksaffron_pace_parse(s, row)
}
