// A part of a row: numbers of one list, placed in a lent row from a place on (`specs/Parts.antt`). A row in which they do not fit stays as it was,
// and is refused.
#![tactic(auto)]

ghost use Rattle.std.specs.Prelude.{◌≡◌, ℤ, map, pos, length};
ghost use Rattle.exports_parts.specs.Parts.{itself, fit_code, placed};

use refusals::Refusal;

// A number that a row of 32-bit numbers holds as it is.
pub trait Held: Copy {
    ghost held: { Self → ℤ };

    fn hold(self) -> i32
        ensures { result ≡ held self };
}

impl Held for u8 {
    ghost held = { pos };

    fn hold(self) -> i32 {
        i32::from(self)
    }
}

impl Held for u16 {
    ghost held = { pos };

    fn hold(self) -> i32 {
        i32::from(self)
    }
}

impl Held for i32 {
    ghost held = { itself };

    fn hold(self) -> i32 {
        self
    }
}

// The numbers from the place `at` of the row on.
pub fn put<T: Held>(numbers: &[T], at: usize, row: &mut [i32]) -> Result<(), Refusal>
    ensures answer { result ≡ fit_code at (length numbers.now) (length row.old) }
    ensures filled { row.new ≡ placed at (map T.held numbers.now) row.old }
{
    if row.len() < at {
        return Err(Refusal::Room);
    }
    if row.len() - at < numbers.len() {
        return Err(Refusal::Room);
    }
    for i in 0..numbers.len() {
        row[at + i] = numbers[i].hold();
    }
    Ok(())
}
