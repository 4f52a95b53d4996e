// What the payload of a Tongzhu reply says, by its function: 11, 12, 14, 15 or 30 (002, 5.3 and 6; 01, Tongzhu).
#![tactic(auto)]

ghost use Rattle.std.specs.Prelude.{Ok, ◌≡◌, ◌+◌, ◌<◌, ◌≤◌, length, get_or};
ghost use Rattle.monitor3_tongzhu.specs.Layout.{found_at};
ghost use Rattle.monitor3_tongzhu.specs.Values.{number_at, current_at, status_at};
ghost use Rattle.payloads_tongzhu.specs.Payloads.{monitor2_of, answer_in, done_of, sized, payload_of};

use monitor3_tongzhu::{Monitor3, Status, read_numbers};
use numbers::{Order, number16};
use refusals::Refusal;
use signs::{signed8, signed16};

// What function 11 tells (6.2.3).
#[derive(Clone, Copy, Debug, PartialEq, Eq)]
pub struct Monitor2 {
    pub status: Status,
    // In 0.1 A, charging positive.
    pub current: i16,
    // The highest and the lowest cell, in mV.
    pub highest: u16,
    pub lowest: u16,
    // The whole pack, in 10 mV.
    pub total: u16,
    // The highest and the lowest temperature, in degrees Celsius.
    pub hottest: i8,
    pub coldest: i8,
    pub cycles: u16,
    // In 0.1 Ah.
    pub remaining: u16,
    pub capacity: u16,
    pub switch: u8,
}

// What a reply says. A monitor 3's lists stand beside it.
#[derive(Clone, Copy, Debug, PartialEq, Eq)]
pub enum Answer {
    Monitor2(Monitor2),
    Monitor3(Monitor3),
    Status(Status),
    // In 0.1 A, charging positive.
    Current(i16),
    Done,
    NotDone,
    // The device could not make sense of the request.
    DeviceError,
}

// Reads the payload by its function; 7 where this is none of them.
#[tactic(auto, unfolding(crate::specs::Payloads::payload_of))]
pub fn read_payload(function: u8, p: &[u8]) -> Result<Answer, Refusal>
    ensures { result ≡ payload_of function p.now }
{
    match function {
        0x11 => read_monitor2(p),
        0x12 => read_monitor3(p),
        0x14 => read_status(p),
        0x15 => read_current(p),
        0x30 => read_done(p),
        _ => Err(Refusal::Request),
    }
}

// Function 11.
#[tactic(auto, unfolding(crate::specs::Payloads::sized, crate::specs::Payloads::monitor2_of))]
fn read_monitor2(p: &[u8]) -> Result<Answer, Refusal>
    ensures { result ≡ sized 21 p.now (Ok (Answer.Monitor2 (monitor2_of p.now))) }
{
    if p.len() != 21 {
        return Err(Refusal::Shape);
    }
    Ok(Answer::Monitor2(monitor2_of(p)))
}

#[tactic(auto, unfolding(crate::specs::Payloads::monitor2_of))]
fn monitor2_of(p: &[u8]) -> Monitor2
    requires { length p.now ≡ 21 }
    ensures { result ≡ monitor2_of p.now }
{
    Monitor2 {
        status: status_of(p),
        current: signed16(number_at(p, 4)),
        highest: number_at(p, 6),
        lowest: number_at(p, 8),
        total: number_at(p, 10),
        hottest: signed8(p[12]),
        coldest: signed8(p[13]),
        cycles: number_at(p, 14),
        remaining: number_at(p, 16),
        capacity: number_at(p, 18),
        switch: p[20],
    }
}

// Function 12.
fn read_monitor3(p: &[u8]) -> Result<Answer, Refusal>
    ensures { result ≡ answer_in (found_at p.now 0) }
{
    Ok(Answer::Monitor3(read_numbers(p, 0)?))
}

// Function 14.
#[tactic(auto, unfolding(crate::specs::Payloads::sized))]
fn read_status(p: &[u8]) -> Result<Answer, Refusal>
    ensures { result ≡ sized 4 p.now (Ok (Answer.Status (status_at p.now 0))) }
{
    if p.len() != 4 {
        return Err(Refusal::Shape);
    }
    Ok(Answer::Status(status_of(p)))
}

// The battery status at the front of p.
fn status_of(p: &[u8]) -> Status
    requires { 4 ≤ length p.now }
    ensures { result ≡ status_at p.now 0 }
{
    Status {
        first: p[0],
        second: p[1],
        third: p[2],
        fourth: p[3],
    }
}

// Function 15.
#[tactic(auto, unfolding(crate::specs::Payloads::sized))]
fn read_current(p: &[u8]) -> Result<Answer, Refusal>
    ensures { result ≡ sized 2 p.now (Ok (Answer.Current (current_at p.now 0))) }
{
    if p.len() != 2 {
        return Err(Refusal::Shape);
    }
    Ok(Answer::Current(signed16(number_at(p, 0))))
}

// Function 30.
#[tactic(auto, unfolding(crate::specs::Payloads::sized, crate::specs::Payloads::done_of))]
fn read_done(p: &[u8]) -> Result<Answer, Refusal>
    ensures { result ≡ sized 1 p.now (done_of (get_or p.now 0 0)) }
{
    if p.len() != 1 {
        return Err(Refusal::Shape);
    }
    match p[0] {
        0x01 => Ok(Answer::Done),
        0x02 => Ok(Answer::NotDone),
        _ => Err(Refusal::Range),
    }
}

// The number of two bytes at the place i. `monitor3_tongzhu` has its own, and its own status: a call that crates share has no `requires`.
fn number_at(p: &[u8], i: usize) -> u16
    requires { i + 1 < length p.now }
    ensures { result ≡ number_at p.now i }
{
    number16(Order::LowFirst, p[i], p[i + 1])
}
