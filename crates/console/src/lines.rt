// The lines, a function each (docs/CONSOLE.md): the words that choose it, then how many words it takes, then each of them in the type of its call,
// which is one that C and Rust link, and the forms of its answer (`text`).
use crate::words::{Fault, Words};
use exports_checks::{tracksaffron_close256, tracksaffron_close65536, tracksaffron_crc16};
use exports_jobs::{tracksaffron_restore_left, tracksaffron_restore_open};
use exports_old58::tracksaffron_old_read;
use exports_pace::tracksaffron_pace_read;
use exports_parsed_pace::tracksaffron_pace_parse;
use exports_parsed_pathfinder::tracksaffron_pf_parse;
use exports_parsed_tongzhu::tracksaffron_tz_parse;
use exports_pathfinder::{tracksaffron_pf_find, tracksaffron_pf_read};
use exports_requests_pace::{
    tracksaffron_pace_ask, tracksaffron_pace_cell_overvoltage, tracksaffron_pace_slow_discharge,
};
use exports_requests_pathfinder::{tracksaffron_pf_ask, tracksaffron_pf_write};
use exports_requests_tongzhu::{tracksaffron_tz_ask, tracksaffron_tz_set_time};
use exports_restore::{tracksaffron_restore_next, tracksaffron_restore_reply};
use exports_tongzhu::tracksaffron_tz_read;
use exports_values_pathfinder::{tracksaffron_pf_millivolts, tracksaffron_pf_row};

// What the calls are lent, in fixed memory: the bytes that a line gives, a row for numbers, room for text or a frame, and the restore job, which goes
// on from line to line as C keeps it.
#[derive(Drop)]
pub struct Desk {
    pub bytes: [u8; 8192],
    pub row: [i32; 16384],
    pub text: [u8; 8192],
    pub job: [u8; 402],
}

impl Desk {
    pub fn new() -> Desk {
        Desk {
            bytes: [0; 8192],
            row: [0; 16384],
            text: [0; 8192],
            job: [255; 402],
        }
    }

    // The values of a call that was lent no row.
    fn put_two(&mut self, first: i32, second: i32) {
        self.row[0] = first;
        self.row[1] = second;
    }
}

// A call's answer is one number (docs/DECISIONS.md, C and Rust): its kind, so much for each, and a number below.
const KIND: u64 = 4294967296;

// What a call answers, and the forms of its kinds from 1 on.
#[derive(Drop)]
pub struct Answer {
    code: u64,
    forms: &'static [&'static str],
}

impl Answer {
    pub fn number(&self) -> usize {
        (self.code % KIND) as usize
    }

    // Kind 0 is a refusal.
    pub fn form(&self) -> &'static str {
        let kind = (self.code / KIND) as usize;
        if kind == 0 {
            return "refused =";
        }
        self.forms.get(kind - 1).copied().unwrap_or("")
    }
}

// The form of a request that was written.
const FRAME: &[&str] = &["ok frame $"];

// The code of a call that gives its values with no kind.
const GIVES: u64 = KIND;

fn answered(code: u64, forms: &'static [&'static str]) -> Result<Answer, Fault> {
    Ok(Answer { code, forms })
}

// A request with nothing but its code: the room, `ask`, the code.
fn ask<F: FnOnce(u8, &mut [u8]) -> u64>(
    line: &mut Words,
    desk: &mut Desk,
    call: F,
) -> Result<Answer, Fault>
    requires { F.IsAlwaysCallable call }
{
    line.has_just(3)?;
    let room = line.room(&mut desk.text)?;
    line.word()?;
    answered(call(line.byte()?, room), FRAME)
}

// The answer of a line by its first word.
pub fn answer_to(line: &mut Words, desk: &mut Desk) -> Result<Answer, Fault> {
    match line.word()? {
        b"check" => check(line, desk),
        b"pf" => pathfinder(line, desk),
        b"tz" => tongzhu(line, desk),
        b"pace" => pace(line, desk),
        b"old" => old(line, desk),
        b"restore" => restore(line, desk),
        _ => Err(Fault::UnknownWord),
    }
}

// ---- check

fn check(line: &mut Words, desk: &mut Desk) -> Result<Answer, Fault> {
    match line.word()? {
        b"crc" => crc(line, desk),
        b"sum8" => sum8(line, desk),
        b"sum16" => sum16(line, desk),
        _ => Err(Fault::UnknownWord),
    }
}

fn crc(line: &mut Words, desk: &mut Desk) -> Result<Answer, Fault> {
    line.has_just(1)?;
    let s = line.hex(&mut desk.bytes)?;
    let [high, low] = tracksaffron_crc16(s).to_be_bytes();
    desk.put_two(i32::from(high), i32::from(low));
    answered(GIVES, &["ok crc %%"])
}

fn sum8(line: &mut Words, desk: &mut Desk) -> Result<Answer, Fault> {
    line.has_just(1)?;
    let s = line.hex(&mut desk.bytes)?;
    let closing = tracksaffron_close256(s);
    desk.put_two(i32::from(closing), 0);
    answered(GIVES, &["ok sum8 %"])
}

fn sum16(line: &mut Words, desk: &mut Desk) -> Result<Answer, Fault> {
    line.has_just(1)?;
    let s = line.hex(&mut desk.bytes)?;
    let [high, low] = tracksaffron_close65536(s).to_be_bytes();
    desk.put_two(i32::from(high), i32::from(low));
    answered(GIVES, &["ok sum16 %%"])
}

// ---- Pathfinder

fn pathfinder(line: &mut Words, desk: &mut Desk) -> Result<Answer, Fault> {
    match line.word()? {
        b"read" => pf_read(line, desk),
        b"row" => pf_row(line, desk),
        b"millivolts" => pf_millivolts(line, desk),
        b"parse" => pf_parse(line, desk),
        b"find" => pf_find(line, desk),
        b"write" => pf_write(line, desk),
        _ => Err(Fault::UnknownWord),
    }
}

fn pf_read(line: &mut Words, desk: &mut Desk) -> Result<Answer, Fault> {
    line.has_just(3)?;
    let asked = line.byte()?;
    let name = line.room(&mut desk.text)?;
    let words = desk.row.get_mut(..name.len()).ok_or(Fault::OutOfRange)?;
    let s = line.hex(&mut desk.bytes)?;
    answered(
        tracksaffron_pf_read(asked, s, words, name),
        &["ok words*", "ok name $", "ok written", "ok failure &"],
    )
}

// A row's number may have 33 bits: in two's complement, its low 32 and its high 32 bits.
fn pf_row(line: &mut Words, desk: &mut Desk) -> Result<Answer, Fault> {
    line.has_just(3)?;
    let reply = line.byte()?;
    let row = line.number()?;
    let word = line.number()?;
    let mut value = [0i64];
    let code = tracksaffron_pf_row(reply, row, word, &mut value);
    let [a, b, c, d, e, f, g, h] = value[0].to_le_bytes();
    desk.put_two(
        i32::from_le_bytes([a, b, c, d]),
        i32::from_le_bytes([e, f, g, h]),
    );
    answered(
        code,
        &[
            "ok number ~",
            "ok ten_millivolts ~",
            "ok truth ~",
            "ok missing",
        ],
    )
}

fn pf_millivolts(line: &mut Words, desk: &mut Desk) -> Result<Answer, Fault> {
    line.has_just(1)?;
    desk.put_two(tracksaffron_pf_millivolts(line.number()?), 0);
    answered(GIVES, &["ok millivolts #"])
}

fn pf_parse(line: &mut Words, desk: &mut Desk) -> Result<Answer, Fault> {
    line.has_just(1)?;
    let s = line.hex(&mut desk.bytes)?;
    answered(
        tracksaffron_pf_parse(s, &mut desk.row),
        &["ok ask %", "ok write # #"],
    )
}

// A line has no more than 8,192 bytes to look through.
fn pf_find(line: &mut Words, desk: &mut Desk) -> Result<Answer, Fault> {
    line.has_just(1)?;
    let s = line.hex(&mut desk.bytes)?;
    let mut found = [0usize; 2];
    let code = tracksaffron_pf_find(s, &mut found);
    let [start, len] = found.map(|n| i32::try_from(n).unwrap_or(0));
    desk.put_two(start, len);
    answered(code, &["ok at # #", "ok none"])
}

fn pf_write(line: &mut Words, desk: &mut Desk) -> Result<Answer, Fault> {
    match line.word_behind(1)? {
        b"ask" => ask(line, desk, |code, room| tracksaffron_pf_ask(code, room)),
        b"set" => pf_set(line, desk),
        _ => Err(Fault::UnknownWord),
    }
}

fn pf_set(line: &mut Words, desk: &mut Desk) -> Result<Answer, Fault> {
    line.has_just(4)?;
    let room = line.room(&mut desk.text)?;
    line.word()?;
    let register = line.number()?;
    let value = line.number()?;
    answered(tracksaffron_pf_write(register, value, room), FRAME)
}

// ---- Tongzhu

fn tongzhu(line: &mut Words, desk: &mut Desk) -> Result<Answer, Fault> {
    match line.word()? {
        b"read" => tz_read(line, desk),
        b"parse" => tz_parse(line, desk),
        b"write" => tz_write(line, desk),
        _ => Err(Fault::UnknownWord),
    }
}

fn tz_read(line: &mut Words, desk: &mut Desk) -> Result<Answer, Fault> {
    line.has_just(2)?;
    let asked = line.byte()?;
    let s = line.hex(&mut desk.bytes)?;
    answered(
        tracksaffron_tz_read(asked, s, &mut desk.row),
        &[
            "ok monitor2 status # # # # current_100ma # highest_mv # lowest_mv # total_10mv # hottest_c # coldest_c # cycles # \
            remaining_100mah # capacity_100mah # switch #",
            "ok monitor3 status # # # # current_100ma # cells #[12]* balance[44]+ cell_sensors [6]#[48]* mos_sensors [7]#[64]* cycles [8]# \
            remaining_100mah # capacity_100mah # switch #",
            "ok status # # # #",
            "ok current_100ma #",
            "ok done",
            "ok not_done",
            "ok device_error",
        ],
    )
}

fn tz_parse(line: &mut Words, desk: &mut Desk) -> Result<Answer, Fault> {
    line.has_just(1)?;
    let s = line.hex(&mut desk.bytes)?;
    answered(
        tracksaffron_tz_parse(s, &mut desk.row),
        &["ok ask %", "ok set_time # # # # # #"],
    )
}

fn tz_write(line: &mut Words, desk: &mut Desk) -> Result<Answer, Fault> {
    match line.word_behind(1)? {
        b"ask" => ask(line, desk, |code, room| tracksaffron_tz_ask(code, room)),
        b"set_time" => tz_set_time(line, desk),
        _ => Err(Fault::UnknownWord),
    }
}

fn tz_set_time(line: &mut Words, desk: &mut Desk) -> Result<Answer, Fault> {
    line.has_just(8)?;
    let room = line.room(&mut desk.text)?;
    line.word()?;
    let year = line.number()?;
    let month = line.number()?;
    let day = line.number()?;
    let hour = line.number()?;
    let minute = line.number()?;
    let second = line.number()?;
    answered(
        tracksaffron_tz_set_time(year, month, day, hour, minute, second, room),
        FRAME,
    )
}

// ---- PACE

fn pace(line: &mut Words, desk: &mut Desk) -> Result<Answer, Fault> {
    match line.word()? {
        b"read" => pace_read(line, desk),
        b"parse" => pace_parse(line, desk),
        b"write" => pace_write(line, desk),
        _ => Err(Fault::UnknownWord),
    }
}

fn pace_read(line: &mut Words, desk: &mut Desk) -> Result<Answer, Fault> {
    line.has_just(3)?;
    let address = line.byte()?;
    let asked = line.byte()?;
    let s = line.hex(&mut desk.bytes)?;
    answered(
        tracksaffron_pace_read(address, asked, s, &mut desk.row, &mut desk.text),
        &[
            "ok analog cells #[8]* temperatures [1]#[24]* current_10ma [2]# total_mv # remaining_10mah # full_10mah # cycles # design_10mah #",
            "ok warnings cells #[14]* temperatures [1]#[30]* charge_current [2]# total_voltage # discharge_current # protection1 # \
            protection2 # system # configuration # fault # balance_high # balance_low # warning1 # warning2 #",
            "ok hardware $",
            "ok serial $",
            "ok cell_overvoltage alarm_mv # protect_mv # release_mv # delay_100ms #",
            "ok slow_discharge alarm_a # protect_a # delay_100ms #",
            "ok accepted",
            "ok failure &",
        ],
    )
}

fn pace_parse(line: &mut Words, desk: &mut Desk) -> Result<Answer, Fault> {
    line.has_just(1)?;
    let s = line.hex(&mut desk.bytes)?;
    answered(
        tracksaffron_pace_parse(s, &mut desk.row),
        &[
            "ok ask % %",
            "ok cell_overvoltage % # # # #",
            "ok slow_discharge % # # #",
        ],
    )
}

fn pace_write(line: &mut Words, desk: &mut Desk) -> Result<Answer, Fault> {
    match line.word_behind(2)? {
        b"ask" => pace_ask(line, desk),
        b"cell_overvoltage" => pace_cell_overvoltage(line, desk),
        b"slow_discharge" => pace_slow_discharge(line, desk),
        _ => Err(Fault::UnknownWord),
    }
}

fn pace_ask(line: &mut Words, desk: &mut Desk) -> Result<Answer, Fault> {
    line.has_just(4)?;
    let room = line.room(&mut desk.text)?;
    let address = line.byte()?;
    line.word()?;
    let command = line.byte()?;
    answered(tracksaffron_pace_ask(address, command, room), FRAME)
}

fn pace_cell_overvoltage(line: &mut Words, desk: &mut Desk) -> Result<Answer, Fault> {
    line.has_just(7)?;
    let room = line.room(&mut desk.text)?;
    let address = line.byte()?;
    line.word()?;
    let alarm = line.number()?;
    let protect = line.number()?;
    let release = line.number()?;
    let delay = line.number()?;
    answered(
        tracksaffron_pace_cell_overvoltage(address, alarm, protect, release, delay, room),
        FRAME,
    )
}

fn pace_slow_discharge(line: &mut Words, desk: &mut Desk) -> Result<Answer, Fault> {
    line.has_just(6)?;
    let room = line.room(&mut desk.text)?;
    let address = line.byte()?;
    line.word()?;
    let alarm = line.number()?;
    let protect = line.number()?;
    let delay = line.number()?;
    answered(
        tracksaffron_pace_slow_discharge(address, alarm, protect, delay, room),
        FRAME,
    )
}

// ---- the old 58-byte record

fn old(line: &mut Words, desk: &mut Desk) -> Result<Answer, Fault> {
    match line.word()? {
        b"read" => old_read(line, desk),
        _ => Err(Fault::UnknownWord),
    }
}

fn old_read(line: &mut Words, desk: &mut Desk) -> Result<Answer, Fault> {
    line.has_just(1)?;
    let s = line.hex(&mut desk.bytes)?;
    answered(
        tracksaffron_old_read(s, &mut desk.row),
        &[
            "ok total_mv # current_ma ? current2_ma ? current3_ma ? lowest_mv # lowest_cell # highest_mv # highest_cell # coldest_c # \
            coldest_cell # hottest_c # hottest_cell # cell # cells # cell_mv # cell_c # status # collected_today_wh # stored_wh # \
            consumed_today_wh # soc_percent # collected_kwh # consumed_kwh # hour # minute # capacity_100wh # vmin_count # vmax_count # \
            vbypass_count #",
        ],
    )
}

// ---- restore

fn restore(line: &mut Words, desk: &mut Desk) -> Result<Answer, Fault> {
    match line.word()? {
        b"open" => restore_open(line, desk),
        b"next" => restore_next(line, desk),
        b"reply" => restore_reply(line, desk),
        b"left" => restore_left(line, desk),
        _ => Err(Fault::UnknownWord),
    }
}

fn restore_open(line: &mut Words, desk: &mut Desk) -> Result<Answer, Fault> {
    line.has_just(2)?;
    let (present, row) = line.list(&mut desk.row)?;
    let (wanted, _) = line.list(row)?;
    answered(
        tracksaffron_restore_open(present, wanted, &mut desk.job),
        &["ok opened"],
    )
}

// Bytes that hold no job have a phase that no job has.
fn has_job(job: &[u8; 402]) -> Result<(), Fault> {
    if job[400] == 255 {
        return Err(Fault::NoJob);
    }
    Ok(())
}

fn restore_next(line: &mut Words, desk: &mut Desk) -> Result<Answer, Fault> {
    line.has_just(1)?;
    let room = line.room(&mut desk.text)?;
    has_job(&desk.job)?;
    answered(
        tracksaffron_restore_next(&mut desk.job, room),
        &["ok frame $", "ok done"],
    )
}

fn restore_reply(line: &mut Words, desk: &mut Desk) -> Result<Answer, Fault> {
    line.has_just(1)?;
    let s = line.hex(&mut desk.bytes)?;
    has_job(&desk.job)?;
    answered(
        tracksaffron_restore_reply(&mut desk.job, s),
        &["ok written", "ok failure &"],
    )
}

fn restore_left(line: &mut Words, desk: &mut Desk) -> Result<Answer, Fault> {
    line.has_just(0)?;
    has_job(&desk.job)?;
    answered(tracksaffron_restore_left(&desk.job), &["ok left ="])
}
