// PACE requests read (004; 01, PACE): which request a frame is. `requests_pace` writes them.
#![tactic(auto)]

ghost use Rattle.std.specs.Prelude.{◌≡◌, true};
ghost use Rattle.characters_pace.specs.Characters.{all_hex};
ghost use Rattle.requests_read_pace.specs.Parsed.{whole_of, parsed_of};

use characters_pace::byte_of;
use commands_pace::command_of;
use frames_pace::read_frame;
use refusals::Refusal;
use requests_pace::{Kind, Request, kind_of};
use settings_pace::parse_setting;

// The request that the characters are, or why they are none.
pub fn read_request(s: &[u8]) -> Result<Request, Refusal>
    ensures { result ≡ parsed_of s.now }
{
    let frame = read_frame(s)?;
    whole(
        frame.address,
        frame.command,
        &s[frame.start..frame.start + frame.len],
    )
}

// A whole frame: its address, its command and its INFO.
fn whole(address: u8, code: u8, info: &[u8]) -> Result<Request, Refusal>
    requires { all_hex info.now ≡ true }
    ensures { result ≡ whole_of address code info.now }
{
    match kind_of(command_of(code)) {
        Some(Kind::Addressed) => {
            if info.len() != 2 {
                return Err(Refusal::Shape);
            }
            if byte_of(info, 0) != address {
                return Err(Refusal::Shape);
            }
            Ok(Request::Ask {
                address,
                command: code,
            })
        }
        Some(Kind::Bare) => {
            if info.len() != 0 {
                return Err(Refusal::Shape);
            }
            Ok(Request::Ask {
                address,
                command: code,
            })
        }
        Some(Kind::Carries(setting)) => {
            let values = parse_setting(setting, info)?;
            Ok(Request::Set { address, values })
        }
        None => Err(Refusal::Request),
    }
}
