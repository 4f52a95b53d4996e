// Pathfinder requests (000, List of Instruction Opcodes and 0x0E Write parameter register; 01, Pathfinder): 01 to 05 without data, 0E with a
// register and a signed value, written as frames. `requests_read_pathfinder` reads them again.
#![tactic(auto)]

ghost use Rattle.std.specs.Prelude.{◌≡◌, length, Ok};
ghost use Rattle.refusals.specs.Writing.{written_as, room_after};
ghost use Rattle.requests_pathfinder.specs.Requests.{set_load, frame_for, fault_of, sent_as};

use frames_written_pathfinder::{begin, seal};
use orders::writing;
use refusals::Refusal;
use registers_pathfinder::{in_range, is_register};
use words_pathfinder::word_bytes;

#[derive(Clone, Copy, Debug, PartialEq, Eq)]
pub enum Request {
    // A request without data, by its opcode.
    Ask(u8),
    // Request 0E.
    Write { register: u8, value: i32 },
}

// Writes a request's frame at the front of the room; bytes after it keep their contents, and a refusal changes nothing.
pub fn write_request(q: Request, out: &mut [u8]) -> Result<usize, Refusal>
    ensures answer { result ≡ sent_as q (length out.old) }
    ensures room { out.new ≡ room_after result (frame_for q) out.old }
{
    match q {
        Request::Ask(opcode) => write_ask(opcode, out),
        Request::Write { register, value } => write_set(register, value, out),
    }
}

// Writes the request without data that this opcode is.
pub fn write_ask(opcode: u8, out: &mut [u8]) -> Result<usize, Refusal>
    ensures answer { result ≡ sent_as (Request.Ask opcode) (length out.old) }
    ensures room { out.new ≡ room_after result (frame_for (Request.Ask opcode)) out.old }
{
    check_ask(opcode)?;
    ask_frame(opcode, out)
}

// Writes request 0E. `begin` would refuse too little room as well; it is asked for here so that the order of the refusals is that of `writing`.
pub fn write_set(register: u8, value: i32, out: &mut [u8]) -> Result<usize, Refusal>
    ensures answer { result ≡ sent_as (Request.Write register value) (length out.old) }
    ensures room { out.new ≡ room_after result (frame_for (Request.Write register value)) out.old }
{
    writing(check_write(register, value), 11 <= out.len())?;
    set_frame(register, value, out)
}

// The refusal that a request meets before any room is looked at, if there is one.
#[tactic(auto, unfolding(crate::specs::Requests::fault_of))]
fn check_ask(opcode: u8) -> Result<(), Refusal>
    ensures { result ≡ fault_of (Request.Ask opcode) }
{
    match opcode {
        0x01..=0x05 => Ok(()),
        0x0E => Err(Refusal::Shape),
        _ => Err(Refusal::Request),
    }
}

#[tactic(auto, unfolding(crate::specs::Requests::fault_of))]
fn check_write(register: u8, value: i32) -> Result<(), Refusal>
    ensures { result ≡ fault_of (Request.Write register value) }
{
    let known = is_register(register);
    let allowed = in_range(register, value);
    if !known {
        return Err(Refusal::Register);
    }
    if !allowed {
        return Err(Refusal::Range);
    }
    Ok(())
}

// The header, and the part for checksum and end mark; there is no data between them.
fn ask_frame(opcode: u8, out: &mut [u8]) -> Result<usize, Refusal>
    ensures answer { result ≡ written_as (Ok tt) 6 (length out.old) }
    ensures room { out.new ≡ room_after result (frame_for (Request.Ask opcode)) out.old }
{
    begin(opcode, 0, out)?;
    seal(0, out)
}

// The header, then the part for the data lent to their writer, then the part for checksum and end mark.
fn set_frame(register: u8, value: i32, out: &mut [u8]) -> Result<usize, Refusal>
    ensures answer { result ≡ written_as (Ok tt) 11 (length out.old) }
    ensures room { out.new ≡ room_after result (frame_for (Request.Write register value)) out.old }
{
    begin(0x0E, 5, out)?;
    put_set(register, value, &mut out[3..8]);
    seal(5, out)
}

// Register and value, the value's low byte first.
fn put_set(register: u8, value: i32, out: &mut [u8])
    requires { length out.old ≡ 5 }
    ensures { out.new ≡ set_load register value }
{
    let [a, b, c, d] = word_bytes(value);
    out.copy_from_slice(&[register, a, b, c, d]);
}
