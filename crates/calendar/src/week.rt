// The days since the one before 1 January 2007, a Monday: Sundays are its multiples of 7.
ghost use Rattle.std.specs.Prelude.{◌≡◌, ◌≤◌, ◌*◌};
ghost use Rattle.energy.specs.Lists.{between, sum_ℕ};
ghost use Rattle.calendar.specs.Calendar.{day_number, days_of, year_days};

use crate::{Date, days_of, is_leap};

fn year_days(year: u16) -> usize
    ensures { result ≡ year_days year }
{
    if is_leap(year) { 366 } else { 365 }
}

// The days of the years before one.
fn before_year(year: u16) -> usize
    ensures { (result ≡ sum_ℕ year_days (between 2007 year)) × (result ≤ 366 * year) }
{
    let mut days = 0;
    for y in Date::YEAR_LEAST..year {
        days += year_days(y);
    }
    days
}

// The days of the year's months before one.
fn before_month(year: u16, month: u8) -> usize
    ensures { (result ≡ sum_ℕ (days_of year) (between 1 month)) × (result ≤ 31 * month) }
{
    let mut days = 0;
    for m in Date::MONTH_LEAST..month {
        days += days_of(year, m) as usize;
    }
    days
}

// A name and no `From<Date> for usize`, which would not say from which day on these are counted.
#[tactic(auto, unfolding(crate::specs::Calendar::day_number))]
pub(crate) fn day_number(year: u16, month: u8, day: u8) -> usize
    ensures { result ≡ day_number year month day }
{
    before_year(year) + before_month(year, month) + day as usize
}
