// What may be written to a PACE pack: the values of a setting in the ranges and steps of its layout (004, "Parameter Setting" tab; 01, PACE).
#![tactic(auto)]

ghost use Rattle.std.specs.Prelude.{◌≡◌, ◌<◌, ◌↔◌, IsTrue, EachIndex, slice_index, true};
ghost use Rattle.characters_pace.specs.Characters.{all_of};
ghost use Rattle.layouts_pace.specs.Settings.{layout_of};
ghost use Rattle.allowed_pace.specs.Allowed.{in_steps, allowed, allowed_of};

use layouts_pace::{Setting, Values, layout_of};

// Whether the values may be written: amounts and delay in the layout's ranges and steps.
pub fn may_write(v: Values) -> bool
    ensures { result ≡ allowed_of v }
{
    match v {
        Values::CellOvervoltage {
            alarm_mv,
            protect_mv,
            release_mv,
            delay_100ms,
        } => {
            let amounts = [alarm_mv, protect_mv, release_mv];
            may_hold(Setting::Overvoltage, &amounts[0..3], delay_100ms)
        }
        Values::SlowDischarge {
            alarm_a,
            protect_a,
            delay_100ms,
        } => {
            let amounts = [alarm_a, protect_a];
            may_hold(Setting::Discharge, &amounts[0..2], delay_100ms)
        }
    }
}

#[tactic(auto, using(layouts_pace::proofs::Settings::steps))]
fn may_hold(setting: Setting, amounts: &[u16], delay: u8) -> bool
    ensures { result ≡ allowed (layout_of setting) amounts.now delay }
{
    let layout = layout_of(setting);
    all_within(layout.low, layout.high, layout.step, amounts)
        && is_within(
            layout.delay_low as u16,
            layout.delay_high as u16,
            layout.delay_step as u16,
            delay as u16,
        )
}

fn all_within(low: u16, high: u16, step: u16, amounts: &[u16]) -> bool
    requires { 0 < step }
    ensures { IsTrue result ↔ EachIndex amounts.now (λ k. in_steps low high step (slice_index amounts.now k) ≡ true) }
{
    amounts.iter().all(|&n| is_within(low, high, step, n))
}

fn is_within(low: u16, high: u16, step: u16, n: u16) -> bool
    requires { 0 < step }
    ensures { result ≡ in_steps low high step n }
{
    low <= n && n <= high && (n - low) % step == 0
}
