// The orders in which refusals are given (01, Refusal numbers), each over tests that have been made: the first refusal, if there is one.
#![tactic(auto)]

ghost use Rattle.std.specs.Prelude.{◌≡◌};
ghost use Rattle.orders.specs.Orders.{pace_frame, writing};

use refusals::Refusal;

// The first fault of a PACE frame that is long enough.
pub fn pace_frame(
    starts: bool,
    ends: bool,
    hex: bool,
    fits: bool,
    closes: bool,
    known: bool,
) -> Result<(), Refusal>
    ensures { result ≡ pace_frame starts ends hex fits closes known }
{
    if !starts {
        return Err(Refusal::FirstMark);
    }
    if !ends {
        return Err(Refusal::LastMark);
    }
    if !hex {
        return Err(Refusal::Character);
    }
    if !fits {
        return Err(Refusal::Length);
    }
    if !closes {
        return Err(Refusal::Checksum);
    }
    if !known {
        return Err(Refusal::Address);
    }
    Ok(())
}

// The first refusal of a request that is to be written: its own, if it has one, then too little room.
pub fn writing(sound: Result<(), Refusal>, roomy: bool) -> Result<(), Refusal>
    ensures { result ≡ writing sound roomy }
{
    let fits = roomy.then_some(()).ok_or(Refusal::Room);
    sound.and(fits)
}
