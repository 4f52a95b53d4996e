// What `exports_tongzhu` answers, for C.
ghost use Rattle.std.specs.Prelude.{◌≡◌, length};
ghost use Rattle.records_tongzhu.specs.Replies.{reply_of};
ghost use Rattle.exports_answers.specs.Told.{code_of, row_after};
ghost use Rattle.exports_tongzhu.specs.Replies.{told_of};

// Reads the reply to the Tongzhu function `asked`; its values go to the front of the row.
#[unsafe(no_mangle)]
pub extern "C" fn tracksaffron_tz_read(asked: u8, s: &[u8], row: &mut [i32]) -> u64
    ensures answer { result ≡ code_of (told_of (reply_of asked s.now)) (length row.old) 0 }
    ensures filled { row.new ≡ row_after (told_of (reply_of asked s.now)) row.old }
{
    exports_tongzhu::tracksaffron_tz_read(asked, s, row)
}
