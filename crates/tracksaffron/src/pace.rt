// What `exports_pace` answers, for C.
ghost use Rattle.std.specs.Prelude.{◌≡◌, length};
ghost use Rattle.records_pace.specs.Reply.{reply_of};
ghost use Rattle.exports_answers.specs.Told.{code_of, row_after, text_after};
ghost use Rattle.exports_pace.specs.Replies.{told_of};

// Reads the reply to the PACE command asked of this address; its values go to the front of the row, its text to the front of the bytes.
#[unsafe(no_mangle)]
pub extern "C" fn tracksaffron_pace_read(
    address: u8,
    asked: u8,
    s: &[u8],
    row: &mut [i32],
    text: &mut [u8],
) -> u64
    ensures answer { result ≡ code_of (told_of (reply_of address asked s.now)) (length row.old) (length text.old) }
    ensures filled { row.new ≡ row_after (told_of (reply_of address asked s.now)) row.old }
    ensures copied { text.new ≡ text_after (told_of (reply_of address asked s.now)) text.old }
{
    exports_pace::tracksaffron_pace_read(address, asked, s, row, text)
}
