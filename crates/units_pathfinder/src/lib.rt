// The two units of a Pathfinder voltage, a type each (01, Pathfinder: "Counts of 10 mV and millivolts stay apart"), and the one call between them.
#![tactic(auto)]

ghost use Rattle.std.specs.Prelude.{◌≡◌};
ghost use Rattle.units_pathfinder.specs.Units.{millivolts_of};

// A reading in units of ten millivolts.
#[derive(Clone, Copy, Debug, PartialEq, Eq)]
pub struct TenMillivolts(pub i16);

// A reading in millivolts.
#[derive(Clone, Copy, Debug, PartialEq, Eq)]
pub struct Millivolts(pub i32);

// The one conversion between the two units.
pub fn millivolts_of(v: TenMillivolts) -> Millivolts
    ensures { result ≡ millivolts_of v }
{
    Millivolts(v.0 as i32 * 10)
}
