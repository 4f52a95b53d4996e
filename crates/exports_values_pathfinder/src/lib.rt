// What a word of a Pathfinder reply means, for other languages (`tracksaffron` exports it): numbers and slices only, each call
// safe with any input.
// An answer that is an enum goes out as one number: `specs/Values.antt` says which.
#![tactic(auto)]

ghost use Rattle.std.specs.Prelude.{◌≡◌, [], ◌∷◌, length};
ghost use Rattle.rows_pathfinder.specs.Narrowing.{row_of};
ghost use Rattle.exports_answers.specs.Told.{code_of, row_after, room_code, over};
ghost use Rattle.exports_values_pathfinder.specs.Values.{millivolts_in, told_row};

use exports_answers::{coded, told};
use refusals::Refusal;
use rows_pathfinder::{Row, narrow};
use units_pathfinder::{TenMillivolts, millivolts_of};

// Narrows a word of a Pathfinder reply to its row's type; the value goes to the first place.
#[unsafe(no_mangle)]
pub extern "C" fn tracksaffron_pf_row(reply: u8, row: u8, word: i32, value: &mut [i64]) -> u64
    ensures answer { result ≡ code_of (told_row (row_of reply row word)) (length value.old) 0 }
    ensures filled { value.new ≡ row_after (told_row (row_of reply row word)) value.old }
{
    tell_row(narrow(reply, row, word), value)
}

// A count of ten millivolts as millivolts.
#[unsafe(no_mangle)]
pub extern "C" fn tracksaffron_pf_millivolts(tens: i16) -> i32
    ensures { result ≡ millivolts_in tens }
{
    millivolts_of(TenMillivolts(tens)).0
}

fn tell_row(answer: Result<Option<Row>, Refusal>, value: &mut [i64]) -> u64
    ensures answer { result ≡ code_of (told_row answer) (length value.old) 0 }
    ensures filled { value.new ≡ row_after (told_row answer) value.old }
{
    match answer {
        Ok(Some(Row::Number(v))) => put_value(1, v, value),
        Ok(Some(Row::TenMillivolts(v))) => put_value(2, i64::from(v.0), value),
        Ok(Some(Row::Truth(b))) => put_value(3, i64::from(b), value),
        Ok(None) => coded(4, 0),
        Err(why) => told(why),
    }
}

#[tactic(auto, unfolding(exports_answers::specs::Told::over))]
fn put_value(kind: u8, v: i64, value: &mut [i64]) -> u64
    ensures answer { result ≡ room_code kind 1 (length value.old) }
    ensures filled { value.new ≡ over (v ∷ []) value.old }
{
    if value.is_empty() {
        return told(Refusal::Room);
    }
    value[0] = v;
    coded(kind, 1)
}
