// Tongzhu requests (002, 6; 01, Tongzhu), written as frames: functions 11, 12, 14 and 15 ask without a payload, 30 sets the time.
// `requests_read_tongzhu` reads them.
#![tactic(auto)]

ghost use Rattle.std.specs.Prelude.{◌≡◌, length};
ghost use Rattle.refusals.specs.Writing.{room_after};
ghost use Rattle.times_tongzhu.specs.Times.{time_bytes};
ghost use Rattle.requests_tongzhu.specs.Requests.{frame_for, fault_of, sent_as};

use frames_written_tongzhu::{begin, seal};
use functions_tongzhu::{Kind, kind_of};
use orders::writing;
use refusals::Refusal;
use times_tongzhu::{Time, is_real, time_bytes};

#[derive(Clone, Copy, Debug, PartialEq, Eq)]
pub enum Request {
    // Asks for what the function reads.
    Ask(u8),
    SetTime(Time),
}

// Writes a request's frame at the front of the room; bytes after it keep their contents, and a refusal changes nothing.
pub fn write_request(q: Request, out: &mut [u8]) -> Result<usize, Refusal>
    ensures answer { result ≡ sent_as q (length out.old) }
    ensures room { out.new ≡ room_after result (frame_for q) out.old }
{
    match q {
        Request::Ask(function) => write_ask(function, out),
        Request::SetTime(t) => write_time(t, out),
    }
}

// The header, and the part for the check; there is no payload between them.
#[tactic(auto, using(crate::proofs::Made::ask_refused, crate::proofs::Made::ask_sent))]
fn write_ask(function: u8, out: &mut [u8]) -> Result<usize, Refusal>
    ensures answer { result ≡ sent_as (Request.Ask function) (length out.old) }
    ensures room { out.new ≡ room_after result (frame_for (Request.Ask function)) out.old }
{
    check_ask(function)?;
    begin(function, 0, out)?;
    seal(0, out)
}

// The header, then the part for the payload lent to its writer, then the part for the check. `begin` would refuse too little room as well; it is
// asked for here so that the order of the refusals is that of `writing`.
fn write_time(t: Time, out: &mut [u8]) -> Result<usize, Refusal>
    ensures answer { result ≡ sent_as (Request.SetTime t) (length out.old) }
    ensures room { out.new ≡ room_after result (frame_for (Request.SetTime t)) out.old }
{
    writing(check_time(t), 12 <= out.len())?;
    begin(0x30, 6, out)?;
    put_time(t, &mut out[5..11]);
    seal(6, out)
}

// The refusal that asking for a function meets before any room is looked at, if it meets one.
#[tactic(auto, unfolding(crate::specs::Requests::fault_of))]
fn check_ask(function: u8) -> Result<(), Refusal>
    ensures { result ≡ fault_of (Request.Ask function) }
{
    match kind_of(function) {
        Some(Kind::Reads) => Ok(()),
        Some(Kind::Sets) => Err(Refusal::Shape),
        None => Err(Refusal::Request),
    }
}

// The same of a time.
#[tactic(auto, unfolding(crate::specs::Requests::fault_of))]
fn check_time(t: Time) -> Result<(), Refusal>
    ensures { result ≡ fault_of (Request.SetTime t) }
{
    if !is_real(t) {
        return Err(Refusal::Range);
    }
    Ok(())
}

// The payload of function 30: six BCD bytes.
fn put_time(t: Time, out: &mut [u8])
    requires { length out.old ≡ 6 }
    ensures { out.new ≡ time_bytes t }
{
    out.copy_from_slice(&time_bytes(t));
}
