// Pathfinder requests read (000, List of Instruction Opcodes and 0x0E Write parameter register; 01, Pathfinder): the frame, then what its opcode
// and data ask for. `requests_pathfinder` writes them.
#![tactic(auto)]

ghost use Rattle.std.specs.Prelude.{◌≡◌};
ghost use Rattle.requests_read_pathfinder.specs.Reading.{parsed_set, parsed_of, request_of};

use frames_pathfinder::read_frame;
use refusals::Refusal;
use registers_pathfinder::{in_range, is_register};
use requests_pathfinder::Request;
use words_pathfinder::word;

// Reads a request.
#[tactic(auto, using(records_pathfinder::proofs::Filled::part_payload), unfolding(crate::specs::Reading::request_of))]
pub fn read_request(s: &[u8]) -> Result<Request, Refusal>
    ensures { result ≡ request_of s.now }
{
    let frame = read_frame(s)?;
    parse(frame.opcode, &s[frame.start..frame.start + frame.len])
}

#[tactic(auto, unfolding(crate::specs::Reading::parsed_of))]
fn parse(opcode: u8, load: &[u8]) -> Result<Request, Refusal>
    ensures { result ≡ parsed_of opcode load.now }
{
    if opcode == 0x0E {
        return parse_set(load);
    }
    let listed = matches!(opcode, 0x01..=0x05);
    let empty = load.is_empty();
    if !listed {
        return Err(Refusal::Request);
    }
    if !empty {
        return Err(Refusal::Shape);
    }
    Ok(Request::Ask(opcode))
}

#[tactic(auto, unfolding(crate::specs::Reading::parsed_set))]
fn parse_set(load: &[u8]) -> Result<Request, Refusal>
    ensures { result ≡ parsed_set load.now }
{
    let &[register, a, b, c, d] = load.as_array::<5>().ok_or(Refusal::Shape)?;
    let value = word(a, b, c, d);
    let known = is_register(register);
    let allowed = in_range(register, value);
    if !known {
        return Err(Refusal::Register);
    }
    if !allowed {
        return Err(Refusal::Range);
    }
    Ok(Request::Write { register, value })
}
