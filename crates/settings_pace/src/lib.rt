// PACE settings in INFO: the values of a reply and those of a request (004, "Parameter Setting" tab; 01, PACE).
// INFO comes as characters; where they are no bytes that is refused first, and the rest is said of the bytes that they carry.
#![tactic(auto)]

ghost use Rattle.std.specs.Prelude.{◌≡◌, ◌≤◌, ◌↔◌, map, IsTrue, EachIndex, slice_index, is_some, unwrap_or, true};
ghost use Rattle.characters_pace.specs.Characters.{bytes_in, checked_info};
ghost use Rattle.settings_pace.specs.Reading.{shaped, amount_of, reply_of, request_of};

use allowed_pace::may_write;
use characters_pace::byte_of;
use faults_pace::fault_of;
use layouts_pace::{Layout, Setting, Values, layout_of, values_of};
use lists_pace::words_of;
use refusals::Refusal;
use signs::signed16;

// The values in the INFO of a reply, or why there are none.
#[tactic(auto, unfolding(characters_pace::specs::Characters::checked_info))]
pub fn read_setting(setting: Setting, info: &[u8]) -> Result<Values, Refusal>
    ensures { result ≡ checked_info (reply_of setting) info.now }
{
    let fault = fault_of(info);
    fault?;
    in_reply(setting, info)
}

// The values in the INFO of a request, or why there are none.
#[tactic(auto, unfolding(characters_pace::specs::Characters::checked_info))]
pub fn parse_setting(setting: Setting, info: &[u8]) -> Result<Values, Refusal>
    ensures { result ≡ checked_info (request_of setting) info.now }
{
    let wrong = fault_of(info);
    wrong?;
    in_request(setting, info)
}

// In a reply all values are kept; a positive amount in a negated layout is refused. Three words are read and turned, of which a setting's values have its own.
fn in_reply(setting: Setting, info: &[u8]) -> Result<Values, Refusal>
    ensures { result ≡ reply_of setting (bytes_in info.now) }
{
    let layout = layout_of(setting);
    if !has_shape(layout, info) {
        return Err(Refusal::Shape);
    }
    let n = layout.amounts;
    let negated = layout.negated;
    let mut amounts = [0u16; 3];
    words_of(info, 1, &mut amounts);
    if !all_readable(negated, &amounts[0..n]) {
        return Err(Refusal::Range);
    }
    turn(negated, &mut amounts);
    Ok(values_of(setting, amounts, byte_of(info, 2 * n + 1)))
}

// A request has the plain amounts, all of which may be written.
fn in_request(setting: Setting, info: &[u8]) -> Result<Values, Refusal>
    ensures { result ≡ request_of setting (bytes_in info.now) }
{
    let layout = layout_of(setting);
    if !has_shape(layout, info) {
        return Err(Refusal::Shape);
    }
    let n = layout.amounts;
    let mut amounts = [0u16; 3];
    words_of(info, 1, &mut amounts);
    let v = values_of(setting, amounts, byte_of(info, 2 * n + 1));
    if !may_write(v) {
        return Err(Refusal::Range);
    }
    Ok(v)
}

// Whether INFO has the layout's length and lead byte.
#[tactic(auto, using(characters_pace::proofs::Carried::bytes_length), unfolding(crate::specs::Reading::shaped))]
fn has_shape(layout: Layout, info: &[u8]) -> bool
    requires { layout.amounts ≤ 3 }
    ensures { result ≡ shaped layout (bytes_in info.now) }
{
    info.len() / 2 == 2 * layout.amounts + 2 && byte_of(info, 0) == layout.lead
}

// What two bytes of a reply stand for; nothing where they hold a positive number and the negated amount is awaited. The signed 16 bits are widened to 32
// and negated there.
fn amount_of(negated: bool, word: u16) -> Option<u16>
    ensures { result ≡ amount_of negated word }
{
    if !negated {
        return Some(word);
    }
    let v = signed16(word) as i32;
    if 0 < v {
        return None;
    }
    Some((-v) as u16)
}

fn is_readable(negated: bool, word: u16) -> bool
    ensures { result ≡ is_some (amount_of negated word) }
{
    amount_of(negated, word).is_some()
}

fn turned(negated: bool, word: u16) -> u16
    ensures { result ≡ unwrap_or (amount_of negated word) 0 }
{
    amount_of(negated, word).unwrap_or(0)
}

fn all_readable(negated: bool, words: &[u16]) -> bool
    ensures { IsTrue result ↔ EachIndex words.now (λ k. is_some (amount_of negated (slice_index words.now k)) ≡ true) }
{
    words.iter().all(|&word| is_readable(negated, word))
}

// Each word becomes the amount that it stands for.
fn turn(negated: bool, words: &mut [u16])
    ensures { words.new ≡ map (λ w. unwrap_or (amount_of negated w) 0) words.old }
{
    for word in words.iter_mut() {
        *word = turned(negated, *word);
    }
}
