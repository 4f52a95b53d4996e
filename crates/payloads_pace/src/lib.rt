// What the INFO of a PACE reply says, by the command asked (004; 01, PACE): the record that the command calls for.
// INFO comes as characters; where they are no bytes that is refused first, and the rest is said of the bytes that they carry.
#![tactic(auto)]

ghost use Rattle.std.specs.Prelude.{◌≡◌};
ghost use Rattle.characters_pace.specs.Characters.{bytes_in, checked_info};
ghost use Rattle.payloads_pace.specs.Payload.{hardware_of, serial_of, accepted_of, payload_of};

use analog_pace::read_analog;
use commands_pace::Command;
use faults_pace::fault_of;
use layouts_pace::Values;
use lists_pace::bytes_of;
use refusals::Refusal;
use settings_pace::read_setting;
use warnings_pace::read_warnings;

#[derive(Clone, Copy, Debug, PartialEq, Eq)]
pub enum Answer {
    // 42: with the cells' millivolts and the temperatures.
    Analog(analog_pace::Reading),
    // 44: with the warnings of cells and temperatures.
    Warnings(warnings_pace::Reading),
    // C1.
    Hardware([u8; 20]),
    // C2: so many bytes at the front of the text, 20 or 40, and 0 behind them. A buffer with a length beside it, since there is no heap here.
    Serial { text: [u8; 40], len: u8 },
    // D1, DB.
    Setting(Values),
    // D0, DA.
    Accepted,
    // The return code, where it is not 00.
    DeviceFailure(u8),
}

// What INFO says as the answer of this address to this command, or why it says nothing; a command that is not listed has no answer.
pub fn read_payload(address: u8, command: Option<Command>, info: &[u8]) -> Result<Answer, Refusal>
    ensures { result ≡ payload_of address command info.now }
{
    let Some(command) = command else {
        return Err(Refusal::Request);
    };
    match command {
        Command::Analog => read_analog(address, info).map(Answer::Analog),
        Command::Warnings => read_warnings(address, info).map(Answer::Warnings),
        Command::Hardware => checked(info, hardware(info)),
        Command::Serial => checked(info, serial(info)),
        Command::Reads(setting) => read_setting(setting, info).map(Answer::Setting),
        Command::Writes(_) => checked(info, accepted(info)),
    }
}

// What the bytes say, where the characters are bytes.
#[tactic(auto, unfolding(characters_pace::specs::Characters::checked_info))]
fn checked(info: &[u8], said: Result<Answer, Refusal>) -> Result<Answer, Refusal>
    ensures { result ≡ checked_info (λ _. said) info.now }
{
    fault_of(info)?;
    said
}

#[tactic(auto, using(characters_pace::proofs::Carried::bytes_length), unfolding(crate::specs::Payload::hardware_of))]
fn hardware(info: &[u8]) -> Result<Answer, Refusal>
    ensures { result ≡ hardware_of (bytes_in info.now) }
{
    if info.len() / 2 != 20 {
        return Err(Refusal::Shape);
    }
    let mut text = [0u8; 20];
    bytes_of(info, 0, &mut text);
    Ok(Answer::Hardware(text))
}

#[tactic(auto, using(characters_pace::proofs::Carried::bytes_length), unfolding(crate::specs::Payload::serial_of))]
fn serial(info: &[u8]) -> Result<Answer, Refusal>
    ensures { result ≡ serial_of (bytes_in info.now) }
{
    let n = info.len() / 2;
    if n != 20 && n != 40 {
        return Err(Refusal::Shape);
    }
    let mut text = [0u8; 40];
    bytes_of(info, 0, &mut text[0..n]);
    Ok(Answer::Serial { text, len: n as u8 })
}

#[tactic(auto, using(characters_pace::proofs::Carried::bytes_length), unfolding(crate::specs::Payload::accepted_of))]
fn accepted(info: &[u8]) -> Result<Answer, Refusal>
    ensures { result ≡ accepted_of (bytes_in info.now) }
{
    if info.len() / 2 != 0 {
        return Err(Refusal::Shape);
    }
    Ok(Answer::Accepted)
}
