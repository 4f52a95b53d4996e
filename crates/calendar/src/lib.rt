// Real Gregorian dates of 2000 to 2099 and times of day (01, Tongzhu, function 30).
#![tactic(auto, using(crate::proofs::Leaps::each_fourth), unfolding(crate::specs::Dates::real_date, crate::specs::Dates::real_time, crate::specs::Dates::days, crate::specs::Dates::days_in))]

ghost use Rattle.std.specs.Prelude.{◌≡◌, ◌+◌, ◌≤◌};
ghost use Rattle.calendar.specs.Dates.{days_in, real_date, real_time};

// Whether there is such a day: year 0 to 99 stands for 2000 to 2099.
pub fn is_date(year: u8, month: u8, day: u8) -> bool
    ensures { result ≡ real_date year month day }
{
    year < 100 && 1 <= month && month <= 12 && 1 <= day && day <= days_in(year, month)
}

// Whether there is such a time of day, to 23:59:59.
pub fn is_time(hour: u8, minute: u8, second: u8) -> bool
    ensures { result ≡ real_time hour minute second }
{
    hour < 24 && minute < 60 && second < 60
}

// The days of each month of a year that is no leap year.
const DAYS: [u8; 12] = [31, 28, 31, 30, 31, 30, 31, 31, 30, 31, 30, 31];

// How many days a month has. From 2000 to 2099 each fourth year is a leap year.
fn days_in(year: u8, month: u8) -> u8
    requires { (year ≤ 99) × (1 ≤ month) × (month ≤ 12) }
    ensures { result ≡ days_in (2000 + year) month }
{
    if month == 2 && year % 4 == 0 {
        return 29;
    }
    DAYS[(month - 1) as usize]
}
