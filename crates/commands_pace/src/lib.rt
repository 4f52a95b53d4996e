// PACE commands (004; 01, PACE, Requests): four of their own, and two for each setting, as its layout names them.
#![tactic(auto)]

ghost use Rattle.std.specs.Prelude.{◌≡◌};
ghost use Rattle.commands_pace.specs.Commands.{by_setting, command_of};
ghost use Rattle.layouts_pace.specs.Settings.{settings};

use layouts_pace::{Setting, layout_of};

// Every setting.
const SETTINGS: [Setting; 2] = [Setting::Overvoltage, Setting::Discharge];

// What a command is for.
#[derive(Clone, Copy, Debug, PartialEq, Eq)]
pub enum Command {
    Analog,
    Warnings,
    Hardware,
    Serial,
    Reads(Setting),
    Writes(Setting),
}

// The command of this code, if it is listed.
#[tactic(auto, unfolding(crate::specs::Commands::command_of))]
pub fn command_of(code: u8) -> Option<Command>
    ensures { result ≡ command_of code }
{
    match code {
        0x42 => Some(Command::Analog),
        0x44 => Some(Command::Warnings),
        0xC1 => Some(Command::Hardware),
        0xC2 => Some(Command::Serial),
        _ => by_setting(code),
    }
}

// The command of this code by the settings' layouts, if one names it.
fn by_setting(code: u8) -> Option<Command>
    ensures { result ≡ by_setting settings code }
{
    for &setting in &SETTINGS {
        let layout = layout_of(setting);
        if code == layout.reads {
            return Some(Command::Reads(setting));
        }
        if code == layout.writes {
            return Some(Command::Writes(setting));
        }
    }
    None
}
