// Writing a PACE setting: the INFO of the request that writes its values, by its layout (004, "Parameter Setting" tab; 01, PACE).
#![tactic(auto)]

ghost use Rattle.std.specs.Prelude.{◌≡◌, ◌++◌, ◌*◌, length, drop, replicate};
ghost use Rattle.layouts_pace.specs.Settings.{setting_of, amounts_of, delay_of};
ghost use Rattle.writes_pace.specs.Info.{pairs_of, info_record};

use layouts_pace::{Setting, Values, layout_of};
use numbers::Order;
use numbers_written::bytes16;

// The values of a setting with their places counted; places past the layout's amounts are 0.
#[derive(Clone, Copy, Debug, PartialEq, Eq)]
struct Parts {
    setting: Setting,
    amounts: [u16; 3],
    delay: u8,
}

fn parts_of(v: Values) -> Parts
    ensures { (result.setting ≡ setting_of v) × ((result.amounts ≡ amounts_of v ++ drop (length (amounts_of v)) (replicate 3 0)) × (result.delay ≡ delay_of v)) }
{
    match v {
        Values::CellOvervoltage {
            alarm_mv,
            protect_mv,
            release_mv,
            delay_100ms,
        } => Parts {
            setting: Setting::Overvoltage,
            amounts: [alarm_mv, protect_mv, release_mv],
            delay: delay_100ms,
        },
        Values::SlowDischarge {
            alarm_a,
            protect_a,
            delay_100ms,
        } => Parts {
            setting: Setting::Discharge,
            amounts: [alarm_a, protect_a, 0],
            delay: delay_100ms,
        },
    }
}

// The command that writes a setting, and the bytes of its INFO, as many as `len` says. A buffer with a length beside it, since there is no heap here.
#[derive(Clone, Copy, Debug, PartialEq, Eq)]
pub struct Info {
    pub command: u8,
    pub bytes: [u8; 8],
    pub len: usize,
}

// The request that writes these values.
pub fn info_of(v: Values) -> Info
    ensures { result ≡ info_record v }
{
    let p = parts_of(v);
    let setting = p.setting;
    let layout = layout_of(setting);
    let n = layout.amounts;
    let amounts = p.amounts;
    let mut bytes = [0u8; 8];
    bytes[0] = layout.lead;
    put_words(&amounts[0..n], &mut bytes[1..2 * n + 1]);
    bytes[2 * n + 1] = p.delay;
    Info {
        command: layout.writes,
        bytes,
        len: 2 * n + 2,
    }
}

// Two bytes for each number.
fn put_words(words: &[u16], out: &mut [u8])
    requires { length out.old ≡ 2 * length words.now }
    ensures { out.new ≡ pairs_of words.now }
{
    for (i, &word) in words.iter().enumerate() {
        let [high, low] = bytes16(Order::HighFirst, word);
        out[2 * i] = high;
        out[2 * i + 1] = low;
    }
}
