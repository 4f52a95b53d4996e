// Whether a restore may open (01, Restore; 02, request 2): its tests on the present words and the wanted values, in their order. Each is a definition
// of `restore_order`; the pairs are those of `restore_rules`.
#![tactic(auto)]

ghost use Rattle.std.specs.Prelude.{◌≡◌, ◌<◌};
ghost use Rattle.std.specs.Int.Signed.{lt_z};
ghost use Rattle.laws.specs.Every.{every};
ghost use Rattle.restore_order.specs.Slots.{at, is_in, sides, slots};
ghost use Rattle.restore_order.specs.Opening.{pathfinder, opening};
ghost use Rattle.restore_rules.specs.Places.{place_at};
ghost use Rattle.restore_opening.specs.Verdicts.{verdict_of, unmoved, writable, fits, upright};

use refusals::Refusal;
use registers_pathfinder::{fits_type, in_range};
use restore_rules::place_of;

// Whether a restore of these present words towards these values may open.
#[tactic(auto, using(crate::proofs::Judging::few_words, crate::proofs::Judging::few_values))]
pub fn judge(present: &[i32], wanted: &[i32]) -> Result<(), Refusal>
    ensures { result ≡ verdict_of (opening pathfinder present.now wanted.now) }
{
    match (present.as_array::<50>(), wanted.as_array::<50>()) {
        (Some(present), Some(wanted)) => judge_values(present, wanted),
        _ => Err(Refusal::Shape),
    }
}

// The same of 50 words and 50 values. All tests are made before the first of them refuses: their order is that of the refusals alone.
fn judge_values(present: &[i32; 50], wanted: &[i32; 50]) -> Result<(), Refusal>
    ensures { result ≡ verdict_of (opening pathfinder present.now wanted.now) }
{
    let typed = all_fit(present, false);
    let kept = all_unmoved(present, wanted);
    let ranged = all_fit(wanted, true);
    let wanted_right = are_upright(wanted);
    let present_right = are_upright(present);
    if !typed {
        return Err(Refusal::Shape);
    }
    if !kept {
        return Err(Refusal::Register);
    }
    if !ranged {
        return Err(Refusal::Range);
    }
    if !wanted_right {
        return Err(Refusal::WantedPair);
    }
    if !present_right {
        return Err(Refusal::PresentPair);
    }
    Ok(())
}

// ---- the tests

// Whether a setting is written: 47, 48 and 49 are fixed.
fn is_written(n: u8) -> bool
    ensures { result ≡ is_in n slots }
{
    n < 47
}

// The fixed settings are wanted as they are.
fn all_unmoved(present: &[i32; 50], wanted: &[i32; 50]) -> bool
    ensures { result ≡ every 50 (λ n. unmoved n (at wanted.now n) (at present.now n)) }
{
    for n in 0..50 {
        if !is_unmoved(n as u8, wanted[n], present[n]) {
            return false;
        }
    }
    true
}

fn is_unmoved(n: u8, to: i32, from: i32) -> bool
    ensures { result ≡ unmoved n to from }
{
    is_written(n) || to == from
}

// The values are of their settings' types; wanted ones, unless fixed, are in their registers' ranges too.
fn all_fit(values: &[i32; 50], wanted: bool) -> bool
    ensures { result ≡ every 50 (λ n. fits wanted n (at values.now n)) }
{
    for n in 0..50 {
        if !is_fit(n as u8, values[n], wanted) {
            return false;
        }
    }
    true
}

fn is_fit(n: u8, value: i32, wanted: bool) -> bool
    ensures { result ≡ fits wanted n value }
{
    if wanted {
        is_writable(n, value)
    } else {
        fits_type(n, value)
    }
}

fn is_writable(n: u8, value: i32) -> bool
    ensures { result ≡ writable n value }
{
    !is_written(n) || in_range(n, value) && fits_type(n, value)
}

// Each pair has its upper member strictly above its lower one.
#[tactic(auto, using(crate::proofs::Judging::all_up))]
fn are_upright(values: &[i32; 50]) -> bool
    ensures { result ≡ sides slots values.now }
{
    is_upright(values, 3)
        && is_upright(values, 6)
        && is_upright(values, 9)
        && is_upright(values, 12)
        && is_upright(values, 28)
}

// The pair that has its place at n stands right.
fn is_upright(values: &[i32; 50], n: u8) -> bool
    requires { n < 47 }
    ensures { result ≡ upright values.now (place_at n) }
{
    match place_of(n) {
        Some((upper, lower)) => is_above(values, upper, lower),
        None => true,
    }
}

fn is_above(values: &[i32; 50], upper: u8, lower: u8) -> bool
    requires { (upper < 50) × (lower < 50) }
    ensures { result ≡ lt_z (at values.now lower) (at values.now upper) }
{
    values[lower as usize] < values[upper as usize]
}
