// The PACE settings that can be read and written, each with its layout and its values by name (004, "Parameter Setting" tab; 01, PACE).
#![tactic(auto)]

ghost use Rattle.std.specs.Prelude.{◌≡◌};
ghost use Rattle.layouts_pace.specs.Settings.{layout_of, values_of};

// What can be read and written.
#[derive(Clone, Copy, Debug, PartialEq, Eq)]
pub enum Setting {
    Overvoltage,
    Discharge,
}

// How a setting is read and written.
#[derive(Clone, Copy, Debug, PartialEq, Eq)]
pub struct Layout {
    // The commands that read and write it.
    pub reads: u8,
    pub writes: u8,
    // The first byte of INFO, how many amounts follow, and whether a read holds them negated.
    pub lead: u8,
    pub amounts: usize,
    pub negated: bool,
    // What may be written: amounts and delay from low to high in steps.
    pub low: u16,
    pub high: u16,
    pub step: u16,
    pub delay_low: u8,
    pub delay_high: u8,
    pub delay_step: u8,
}

#[tactic(auto, unfolding(crate::specs::Settings::layout_of))]
pub fn layout_of(setting: Setting) -> Layout
    ensures { result ≡ layout_of setting }
{
    match setting {
        Setting::Overvoltage => Layout {
            reads: 0xD1,
            writes: 0xD0,
            lead: 1,
            amounts: 3,
            negated: false,
            low: 2500,
            high: 4500,
            step: 10,
            delay_low: 10,
            delay_high: 50,
            delay_step: 5,
        },
        Setting::Discharge => Layout {
            reads: 0xDB,
            writes: 0xDA,
            lead: 1,
            amounts: 2,
            negated: true,
            low: 1,
            high: 150,
            step: 1,
            delay_low: 5,
            delay_high: 100,
            delay_step: 5,
        },
    }
}

// The values of a setting, by name.
#[derive(Clone, Copy, Debug, PartialEq, Eq)]
pub enum Values {
    CellOvervoltage {
        alarm_mv: u16,
        protect_mv: u16,
        release_mv: u16,
        delay_100ms: u8,
    },
    SlowDischarge {
        alarm_a: u16,
        protect_a: u16,
        delay_100ms: u8,
    },
}

// The values of a setting from its amounts, place by place, and its delay.
pub fn values_of(setting: Setting, amounts: [u16; 3], delay: u8) -> Values
    ensures { result ≡ values_of setting amounts delay }
{
    match setting {
        Setting::Overvoltage => Values::CellOvervoltage {
            alarm_mv: amounts[0],
            protect_mv: amounts[1],
            release_mv: amounts[2],
            delay_100ms: delay,
        },
        Setting::Discharge => Values::SlowDischarge {
            alarm_a: amounts[0],
            protect_a: amounts[1],
            delay_100ms: delay,
        },
    }
}
