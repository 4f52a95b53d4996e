// PACE replies (004; 01, PACE): the frame, the address and the command asked, the return code, and what INFO says to that command.
#![tactic(auto)]

ghost use Rattle.std.specs.Prelude.{◌≡◌, true};
ghost use Rattle.characters_pace.specs.Characters.{all_hex};
ghost use Rattle.records_pace.specs.Reply.{sort_of, answered_of, reply_of};

use commands_pace::{Command, command_of};
use frames_pace::read_frame;
use payloads_pace::{Answer, read_payload};
use refusals::Refusal;

// What a whole frame is to what was asked, where it is not refused: the device's failure, or a record.
#[derive(Clone, Copy, Debug, PartialEq, Eq)]
enum Sort {
    Failure,
    Record,
}

// The reply to the command asked of this address, or why it is none.
pub fn read_reply(address: u8, asked: u8, s: &[u8]) -> Result<Answer, Refusal>
    ensures { result ≡ reply_of address asked s.now }
{
    let frame = read_frame(s)?;
    answered(
        address,
        frame.address,
        command_of(asked),
        frame.command,
        &s[frame.start..frame.start + frame.len],
    )
}

// A whole frame, its address, its return code and INFO, as the answer of this address to this command.
fn answered(
    address: u8,
    from: u8,
    command: Option<Command>,
    code: u8,
    info: &[u8],
) -> Result<Answer, Refusal>
    requires { all_hex info.now ≡ true }
    ensures { result ≡ answered_of address from command code info.now }
{
    let sort = sort_of(
        from == address,
        command.is_some(),
        code == 0,
        info.len() % 2 == 0,
    )?;
    match sort {
        Sort::Failure => Ok(Answer::DeviceFailure(code)),
        Sort::Record => read_payload(address, command, info),
    }
}

// The first that is met, in the order of 01.
fn sort_of(same: bool, listed: bool, working: bool, even: bool) -> Result<Sort, Refusal>
    ensures { result ≡ sort_of same listed working even }
{
    if !same {
        return Err(Refusal::Address);
    }
    if !listed {
        return Err(Refusal::Request);
    }
    if !working {
        return Ok(Sort::Failure);
    }
    if !even {
        return Err(Refusal::Shape);
    }
    Ok(Sort::Record)
}
