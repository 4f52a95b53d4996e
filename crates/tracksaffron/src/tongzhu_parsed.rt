// What `exports_parsed_tongzhu` answers, for C.
ghost use Rattle.std.specs.Prelude.{◌≡◌, length};
ghost use Rattle.exports_answers.specs.Told.{code_of, row_after};
ghost use Rattle.requests_read_tongzhu.specs.Reading.{parsed_of};
ghost use Rattle.exports_parsed_tongzhu.specs.Requests.{told_request};

// Reads a Tongzhu request; its values go to the front of the row.
#[unsafe(no_mangle)]
pub extern "C" fn tracksaffron_tz_parse(s: &[u8], row: &mut [i32]) -> u64
    ensures answer { result ≡ code_of (told_request (parsed_of s.now)) (length row.old) 0 }
    ensures filled { row.new ≡ row_after (told_request (parsed_of s.now)) row.old }
{
    exports_parsed_tongzhu::tracksaffron_tz_parse(s, row)
}
