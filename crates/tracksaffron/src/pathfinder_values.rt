// What `exports_values_pathfinder` answers, for C.
ghost use Rattle.std.specs.Prelude.{◌≡◌, length};
ghost use Rattle.rows_pathfinder.specs.Narrowing.{row_of};
ghost use Rattle.exports_answers.specs.Told.{code_of, row_after};
ghost use Rattle.exports_values_pathfinder.specs.Values.{millivolts_in, told_row};

// Narrows a word of a Pathfinder reply to its row's type; the value goes to the first place.
#[unsafe(no_mangle)]
pub extern "C" fn tracksaffron_pf_row(reply: u8, row: u8, word: i32, value: &mut [i64]) -> u64
    ensures answer { result ≡ code_of (told_row (row_of reply row word)) (length value.old) 0 }
    ensures filled { value.new ≡ row_after (told_row (row_of reply row word)) value.old }
{
    exports_values_pathfinder::tracksaffron_pf_row(reply, row, word, value)
}

// A count of ten millivolts as millivolts.
#[unsafe(no_mangle)]
pub extern "C" fn tracksaffron_pf_millivolts(tens: i16) -> i32
    ensures { result ≡ millivolts_in tens }
{
    exports_values_pathfinder::tracksaffron_pf_millivolts(tens)
}
