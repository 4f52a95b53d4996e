// PACE requests (004; 01, PACE), written as frames: 42 and 44 with the address as their one INFO byte; C1, C2, D1, DB without INFO; D0 and DA with values.
// `requests_read_pace` reads them.
#![tactic(auto)]

ghost use Rattle.std.specs.Prelude.{◌≡◌, length};
ghost use Rattle.refusals.specs.Writing.{room_after};
ghost use Rattle.requests_pace.specs.Request.{kind_of, values_fault, frame_for, sent_as};

use allowed_pace::may_write;
use commands_pace::{Command, command_of};
use frames_written_pace::write_frame;
use layouts_pace::{Setting, Values};
use orders::writing;
use refusals::Refusal;
use writes_pace::info_of;

#[derive(Clone, Copy, Debug, PartialEq, Eq)]
pub enum Request {
    // A request without values.
    Ask { address: u8, command: u8 },
    // Values to be written.
    Set { address: u8, values: Values },
}

// What a command's request carries.
#[derive(Clone, Copy, Debug, PartialEq, Eq)]
pub enum Kind {
    // The address as its one byte.
    Addressed,
    // No INFO.
    Bare,
    // The values of a setting.
    Carries(Setting),
}

// None of a command that is not listed.
pub fn kind_of(command: Option<Command>) -> Option<Kind>
    ensures { result ≡ kind_of command }
{
    match command? {
        Command::Analog => Some(Kind::Addressed),
        Command::Warnings => Some(Kind::Addressed),
        Command::Hardware => Some(Kind::Bare),
        Command::Serial => Some(Kind::Bare),
        Command::Reads(_) => Some(Kind::Bare),
        Command::Writes(setting) => Some(Kind::Carries(setting)),
    }
}

// Writes a request's frame at the front of the room; bytes after it keep their contents, and a refusal changes nothing.
pub fn write_request(q: Request, out: &mut [u8]) -> Result<usize, Refusal>
    ensures answer { result ≡ sent_as q (length out.old) }
    ensures room { out.new ≡ room_after result (frame_for q) out.old }
{
    match q {
        Request::Ask { address, command } => write_ask(address, command, out),
        Request::Set { address, values } => write_values(address, values, out),
    }
}

fn write_ask(address: u8, command: u8, out: &mut [u8]) -> Result<usize, Refusal>
    ensures answer { result ≡ sent_as (Request.Ask address command) (length out.old) }
    ensures room { out.new ≡ room_after result (frame_for (Request.Ask address command)) out.old }
{
    let info = [address];
    match kind_of(command_of(command)) {
        Some(Kind::Addressed) => write_frame(address, command, &info[0..1], out),
        Some(Kind::Bare) => write_frame(address, command, &info[0..0], out),
        Some(Kind::Carries(_)) => Err(Refusal::Shape),
        None => Err(Refusal::Request),
    }
}

// `write_frame` would refuse too little room as well; it is asked for here so that the order of the refusals is that of `writing`.
fn write_values(address: u8, values: Values, out: &mut [u8]) -> Result<usize, Refusal>
    ensures answer { result ≡ sent_as (Request.Set address values) (length out.old) }
    ensures room { out.new ≡ room_after result (frame_for (Request.Set address values)) out.old }
{
    let info = info_of(values);
    let bytes = info.bytes;
    let n = info.len;
    writing(check_values(values), 2 * n + 18 <= out.len())?;
    write_frame(address, info.command, &bytes[0..n], out)
}

// Why values may not be written, whatever the room, if they may not.
fn check_values(values: Values) -> Result<(), Refusal>
    ensures { result ≡ values_fault values }
{
    may_write(values).then_some(()).ok_or(Refusal::Range)
}
