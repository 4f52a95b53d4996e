// The order of a restore's writes (01, Restore): which setting is written first, and how many differ. Each is a definition of
// `restore_order`, read off the present words and the wanted values alone.
#![tactic(auto)]

ghost use Rattle.std.specs.Prelude.{◌≡◌, [], ◌∷◌, ◌<◌};
ghost use Rattle.restore_order.specs.Slots.{pair, differs, writes, slots, how_many};
ghost use Rattle.restore_rules.specs.Places.{place_at, slot_at};
ghost use Rattle.restore_rules.specs.Rules.{first_of, in_turn};

// The pair that has its place at a setting, its upper member first: each has it at the place of its lower number.
pub fn place_of(n: u8) -> Option<(u8, u8)>
    ensures { result ≡ place_at n }
{
    match n {
        3 => Some((3, 4)), // Charge Overtemp
        6 => Some((7, 6)), // Charge Undertemp
        9 => Some((9, 10)), // Discharge Overtemp
        12 => Some((13, 12)), // Discharge Undertemp
        28 => Some((28, 29)), // L2 FET Overtemp
        _ => None,
    }
}

// The first of the writes to come, by its setting's number. Settings 0 to 46 are written: 47, 48 and 49 are fixed.
pub fn first_write(present: &[i32; 50], wanted: &[i32; 50]) -> Option<u8>
    ensures { result ≡ first_of (writes slots present.now wanted.now) }
{
    for n in 0..47 {
        if changed(present, wanted, n) {
            return first_at(present, wanted, n);
        }
    }
    None
}

// How many settings differ from their wanted values.
pub fn count_left(present: &[i32; 50], wanted: &[i32; 50]) -> usize
    ensures { result ≡ how_many 50 (differs present.now wanted.now) }
{
    let mut count: u32 = 0;
    for n in 0..50 {
        if changed(present, wanted, n) {
            count += 1;
        }
    }
    count as usize
}

// ---- one slot

// The first write at the place of a setting.
fn first_at(present: &[i32; 50], wanted: &[i32; 50], n: u8) -> Option<u8>
    requires { n < 47 }
    ensures { result ≡ first_of (writes (slot_at n) present.now wanted.now) }
{
    match place_of(n) {
        Some((upper, lower)) => first_in(present, wanted, upper, lower),
        None => first_of(present, wanted, n, n),
    }
}

// The first write of a pair: the upper member goes first if it is to rise, and else the lower one.
fn first_in(present: &[i32; 50], wanted: &[i32; 50], upper: u8, lower: u8) -> Option<u8>
    requires { (upper < 50) × (lower < 50) }
    ensures { result ≡ first_of (writes (pair upper lower ∷ []) present.now wanted.now) }
{
    let from = present[upper as usize];
    let to = wanted[upper as usize];
    if from < to {
        first_of(present, wanted, upper, lower)
    } else {
        first_of(present, wanted, lower, upper)
    }
}

// Of two settings, the first that is to be written.
fn first_of(present: &[i32; 50], wanted: &[i32; 50], one: u8, other: u8) -> Option<u8>
    requires { (one < 50) × (other < 50) }
    ensures { result ≡ first_of (in_turn present.now wanted.now one other) }
{
    if changed(present, wanted, one) {
        return Some(one);
    }
    if changed(present, wanted, other) {
        return Some(other);
    }
    None
}

// Setting n differs from its wanted value.
fn changed(present: &[i32; 50], wanted: &[i32; 50], n: u8) -> bool
    requires { n < 50 }
    ensures { result ≡ differs present.now wanted.now n }
{
    present[n as usize] != wanted[n as usize]
}
