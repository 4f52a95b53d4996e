// What `exports_pathfinder` answers, for C.
ghost use Rattle.std.specs.Prelude.{◌≡◌, length};
ghost use Rattle.records_pathfinder.specs.Replies.{reply_of, row_after, name_after};
ghost use Rattle.search_pathfinder.specs.Places.{search_of};
ghost use Rattle.exports_pathfinder.specs.Codes.{reply_code, found_code, found_after};

// Reads the reply to the Pathfinder request `asked`.
#[unsafe(no_mangle)]
pub extern "C" fn tracksaffron_pf_read(asked: u8, s: &[u8], row: &mut [i32], name: &mut [u8]) -> u64
    ensures answer { result ≡ reply_code (reply_of asked (length row.old) (length name.old) s.now) }
    ensures filled { row.new ≡ row_after (reply_of asked (length row.old) (length name.old) s.now) s.now row.old }
    ensures copied { name.new ≡ name_after (reply_of asked (length row.old) (length name.old) s.now) s.now name.old }
{
    exports_pathfinder::tracksaffron_pf_read(asked, s, row, name)
}

// The first Pathfinder frame in the bytes: its place goes to the first place of `found`, its whole length to the second.
#[unsafe(no_mangle)]
pub extern "C" fn tracksaffron_pf_find(s: &[u8], found: &mut [usize]) -> u64
    ensures answer { result ≡ found_code (search_of s.now) (length found.old) }
    ensures filled { found.new ≡ found_after (search_of s.now) found.old }
{
    exports_pathfinder::tracksaffron_pf_find(s, found)
}
