// Tongzhu requests read (002, 6; 01, Tongzhu): which request a frame is. `requests_tongzhu` writes them.
#![tactic(auto)]

ghost use Rattle.std.specs.Prelude.{◌≡◌, length};
ghost use Rattle.times_tongzhu.specs.Times.{time_in};
ghost use Rattle.requests_read_tongzhu.specs.Reading.{payload_in, time_request, parsed_of};

use frames_tongzhu::read_frame;
use functions_tongzhu::{Kind, kind_of};
use refusals::Refusal;
use requests_tongzhu::Request;
use times_tongzhu::{Time, is_real, time_in};

// Reads a request.
#[tactic(auto, using(frames_tongzhu::proofs::Ladder::whole_parts, frames_tongzhu::proofs::Ladder::payload_part), unfolding(crate::specs::Reading::parsed_of))]
pub fn read_request(s: &[u8]) -> Result<Request, Refusal>
    ensures { result ≡ parsed_of s.now }
{
    let f = read_frame(s)?;
    payload_in(f.function, &s[f.start..f.start + f.len])
}

// The request of a whole frame with this function and this payload.
#[tactic(auto, unfolding(crate::specs::Reading::payload_in))]
fn payload_in(function: u8, p: &[u8]) -> Result<Request, Refusal>
    ensures { result ≡ payload_in function p.now }
{
    match kind_of(function).ok_or(Refusal::Request)? {
        Kind::Reads => {
            if p.len() != 0 {
                return Err(Refusal::Shape);
            }
            Ok(Request::Ask(function))
        }
        Kind::Sets => {
            if p.len() != 6 {
                return Err(Refusal::Shape);
            }
            time_request(time_of(p))
        }
    }
}

#[tactic(auto, unfolding(crate::specs::Reading::time_request))]
fn time_request(t: Time) -> Result<Request, Refusal>
    ensures { result ≡ time_request t }
{
    if !is_real(t) {
        return Err(Refusal::Range);
    }
    Ok(Request::SetTime(t))
}

// Six bytes as the time that they are.
fn time_of(p: &[u8]) -> Time
    requires { length p.now ≡ 6 }
    ensures { result ≡ time_in p.now }
{
    time_in([p[0], p[1], p[2], p[3], p[4], p[5]])
}
