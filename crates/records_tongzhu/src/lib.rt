// Tongzhu replies as records (002, 5.2 and 6; 01, Tongzhu): what a reply to one of the functions 11, 12, 14, 15 and 30 says. What its payload says
// stands in `payloads_tongzhu`.
#![tactic(auto)]

ghost use Rattle.std.specs.Prelude.{◌≡◌, Ok};
ghost use Rattle.payloads_tongzhu.specs.Payloads.{sized};
ghost use Rattle.records_tongzhu.specs.Replies.{answer_to, lists_beside, reply_of};

use arrays_tongzhu::{no_lists, read_lists};
use frames_tongzhu::read_frame;
use functions_tongzhu::kind_of;
use monitor3_tongzhu::Lists;
use payloads_tongzhu::{Answer, read_payload};
use refusals::Refusal;

// A reply, with the lists of a monitor 3; after any other answer the lists are 0.
#[derive(Clone, Copy, Debug, PartialEq, Eq)]
pub struct Reply {
    pub answer: Answer,
    pub lists: Lists,
}

// Reads the reply to the function `asked`.
#[tactic(auto, using(frames_tongzhu::proofs::Ladder::whole_parts, frames_tongzhu::proofs::Ladder::payload_part), unfolding(crate::specs::Replies::reply_of))]
pub fn read_reply(asked: u8, s: &[u8]) -> Result<Reply, Refusal>
    ensures { result ≡ reply_of asked s.now }
{
    let f = read_frame(s)?;
    let p = &s[f.start..f.start + f.len];
    let answer = answer_to(asked, f.function, p)?;
    let lists = lists_beside(answer, p);
    Ok(Reply { answer, lists })
}

// The lists that go with an answer.
fn lists_beside(answer: Answer, p: &[u8]) -> Lists
    ensures { result ≡ lists_beside answer p.now }
{
    match answer {
        Answer::Monitor3(_) => read_lists(p, 0),
        _ => no_lists(),
    }
}

// The answer that a whole frame with this function and this payload is, in the order of 01: to a function that is not listed it is the reply to
// another one before it is a device error.
#[tactic(auto, unfolding(crate::specs::Replies::answer_to))]
pub fn answer_to(asked: u8, function: u8, p: &[u8]) -> Result<Answer, Refusal>
    ensures { result ≡ answer_to asked function p.now }
{
    let listed = kind_of(asked).is_some();
    let sound = function != 0;
    let same = function == asked;
    if !listed {
        return Err(Refusal::Request);
    }
    if !sound {
        return error_in(p);
    }
    if same {
        return read_payload(asked, p);
    }
    Err(Refusal::Request)
}

// The device error has no payload.
#[tactic(auto, unfolding(payloads_tongzhu::specs::Payloads::sized))]
fn error_in(p: &[u8]) -> Result<Answer, Refusal>
    ensures { result ≡ sized 0 p.now (Ok Answer.DeviceError) }
{
    if p.len() != 0 {
        return Err(Refusal::Shape);
    }
    Ok(Answer::DeviceError)
}
