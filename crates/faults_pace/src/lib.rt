// Whether PACE characters are bytes at all (01, PACE; 01, Refusal numbers): upper-case hex digits (13), an even count of them (8). What is said of them is
// defined in `characters_pace`.
#![tactic(auto)]

ghost use Rattle.std.specs.Prelude.{◌≡◌};
ghost use Rattle.std.specs.Option.{is_some};
ghost use Rattle.digits.specs.Hexes.{digit_of};
ghost use Rattle.characters_pace.specs.Characters.{all_hex, fault_of};

use digits::read_digit;
use refusals::Refusal;

// Whether each character is one of 0-9 and A-F. Every character is looked at, so that several are at a time.
pub fn all_hex(s: &[u8]) -> bool
    ensures { result ≡ all_hex s.now }
{
    let mut hex = true;
    for &c in s {
        hex &= is_hex(c);
    }
    hex
}

// Whether a character is one of 0-9 and A-F.
fn is_hex(c: u8) -> bool
    ensures { result ≡ is_some (digit_of c) }
{
    read_digit(c).is_some()
}

// Why characters are no bytes, if they are none: 13 for one that is no digit, then 8 for an odd count.
#[tactic(auto, unfolding(characters_pace::specs::Characters::fault_of))]
pub fn fault_of(s: &[u8]) -> Result<(), Refusal>
    ensures { result ≡ fault_of s.now }
{
    let hex = all_hex(s);
    let even = s.len() % 2 == 0;
    if !hex {
        return Err(Refusal::Character);
    }
    if !even {
        return Err(Refusal::Shape);
    }
    Ok(())
}
