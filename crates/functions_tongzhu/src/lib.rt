// Tongzhu functions (01, Tongzhu): which there are, and what each is asked for.
#![tactic(auto)]

ghost use Rattle.std.specs.Prelude.{◌≡◌};
ghost use Rattle.functions_tongzhu.specs.Functions.{kind_of};

// What a function is asked for.
#[derive(Clone, Copy, Debug, PartialEq, Eq)]
pub enum Kind {
    // 11, 12, 14, 15: it reads something, and its request has no payload.
    Reads,
    // 30: it sets the time.
    Sets,
}

// The functions of document 01; no kind of any other.
#[tactic(auto, unfolding(crate::specs::Functions::kind_of))]
pub fn kind_of(function: u8) -> Option<Kind>
    ensures { result ≡ kind_of function }
{
    match function {
        0x11 | 0x12 | 0x14 | 0x15 => Some(Kind::Reads),
        0x30 => Some(Kind::Sets),
        _ => None,
    }
}
