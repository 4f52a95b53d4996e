// What `exports_old58` answers, for C.
ghost use Rattle.std.specs.Prelude.{◌≡◌, length};
ghost use Rattle.old58.specs.Read.{reading_of};
ghost use Rattle.exports_answers.specs.Told.{code_of, row_after};
ghost use Rattle.exports_old58.specs.Records.{told_of};

// Reads a record; its values go to the front of the row.
#[unsafe(no_mangle)]
pub extern "C" fn tracksaffron_old_read(s: &[u8], row: &mut [i32]) -> u64
    ensures answer { result ≡ code_of (told_of (reading_of s.now)) (length row.old) 0 }
    ensures filled { row.new ≡ row_after (told_of (reading_of s.now)) row.old }
{
    exports_old58::tracksaffron_old_read(s, row)
}
