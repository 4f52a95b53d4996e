// The 58-byte monitor for other languages (`tracksaffron` exports it): numbers and slices only, safe with any input.
// `specs/Records.antt` says at which place of the row each value stands.
#![tactic(auto)]

ghost use Rattle.std.specs.Prelude.{◌≡◌, ◌<◌, pos, length};
ghost use Rattle.old58.specs.Read.{reading_of};
ghost use Rattle.old58.specs.Record.{record_of};
ghost use Rattle.exports_answers.specs.Told.{code_of, row_after, room_code, over};
ghost use Rattle.exports_old58.specs.Records.{known, pack_numbers, extremes_numbers, cell_numbers, energy_numbers, setup_numbers, SmallEnergy, all_numbers, told_of};

use exports_answers::{coded, told};
use exports_parts::put;
use old58::judge;
use parts_old58::{
    Cell, Energy, Extremes, Pack, Setup, cell_of, energy_of, extremes_of, pack_of, setup_of,
};
use refusals::Refusal;

// How many numbers a record has.
const RECORD: usize = 32;

// Reads a record; its values go to the front of the row.
#[unsafe(no_mangle)]
#[tactic(auto, unfolding(old58::specs::Read::reading_of))]
pub extern "C" fn tracksaffron_old_read(s: &[u8], row: &mut [i32]) -> u64
    ensures answer { result ≡ code_of (told_of (reading_of s.now)) (length row.old) 0 }
    ensures filled { row.new ≡ row_after (told_of (reading_of s.now)) row.old }
{
    match judge(s) {
        Ok(()) => put_record(s, row),
        Err(why) => told(why),
    }
}

// The record in the bytes, each part read and then written: a whole record would not stay in the registers.
#[tactic(auto, using(crate::proofs::Small::pack_small, crate::proofs::Small::extremes_small, crate::proofs::Small::cell_small, crate::proofs::Small::energy_small), unfolding(exports_parts::specs::Parts::fit_code))]
fn put_record(s: &[u8], row: &mut [i32]) -> u64
    ensures answer { result ≡ room_code 1 (length (all_numbers (record_of s.now))) (length row.old) }
    ensures filled { row.new ≡ over (all_numbers (record_of s.now)) row.old }
{
    if row.len() < RECORD {
        return told(Refusal::Room);
    }
    let pack = pack_numbers(pack_of(s));
    put(&pack, 0, row).unwrap();
    let extremes = extremes_numbers(extremes_of(s));
    put(&extremes, 7, row).unwrap();
    let cell = cell_numbers(cell_of(s));
    put(&cell, 15, row).unwrap();
    let energy = energy_numbers(energy_of(s));
    put(&energy, 20, row).unwrap();
    let setup = setup_numbers(setup_of(s));
    put(&setup, 26, row).unwrap();
    coded(1, RECORD)
}

fn pack_numbers(p: Pack) -> [i32; 7]
    requires { p.total_mv < 2147483648 }
    ensures { result ≡ pack_numbers p }
{
    let first = p.current_ma;
    let second = p.current2_ma;
    let third = p.current3_ma;
    [
        word(p.total_mv),
        is_known(first),
        first.unwrap_or(0),
        is_known(second),
        second.unwrap_or(0),
        is_known(third),
        third.unwrap_or(0),
    ]
}

// A number of three bytes, or five times one, is below 2 to the 31.
fn word(n: u32) -> i32
    requires { n < 2147483648 }
    ensures { result ≡ pos n }
{
    n as i32
}

// 1 where the current is known, 0 where it is missing.
fn is_known(c: Option<i32>) -> i32
    ensures { result ≡ known c }
{
    i32::from(c.is_some())
}

fn extremes_numbers(e: Extremes) -> [i32; 8]
    requires { (e.lowest_mv < 2147483648) × (e.highest_mv < 2147483648) }
    ensures { result ≡ extremes_numbers e }
{
    [
        word(e.lowest_mv),
        e.lowest_cell as i32,
        word(e.highest_mv),
        e.highest_cell as i32,
        e.coldest_c,
        e.coldest_cell as i32,
        e.hottest_c,
        e.hottest_cell as i32,
    ]
}

fn cell_numbers(k: Cell) -> [i32; 5]
    requires { k.cell_mv < 2147483648 }
    ensures { result ≡ cell_numbers k }
{
    [
        k.cell as i32,
        k.cells as i32,
        word(k.cell_mv),
        k.cell_c,
        k.status as i32,
    ]
}

fn energy_numbers(e: Energy) -> [i32; 6]
    requires { SmallEnergy e }
    ensures { result ≡ energy_numbers e }
{
    [
        word(e.collected_today_wh),
        word(e.stored_wh),
        word(e.consumed_today_wh),
        e.soc_percent as i32,
        word(e.collected_kwh),
        word(e.consumed_kwh),
    ]
}

fn setup_numbers(s: Setup) -> [i32; 6]
    ensures { result ≡ setup_numbers s }
{
    [
        s.hour as i32,
        s.minute as i32,
        s.capacity_100wh as i32,
        s.vmin_count as i32,
        s.vmax_count as i32,
        s.vbypass_count as i32,
    ]
}
