// Months of a calendar date: the days of a month, which dates there are, Sundays, and the hour that a dated month gains or loses.
#![tactic(auto)]

ghost use Rattle.std.specs.Prelude.{◌≡◌};
ghost use Rattle.calendar.specs.Calendar.{days_of, gained_in, is_date, is_leap, is_no_date, is_sunday, lost_in};

mod week;

use crate::week::day_number;

// A date as it is told: any of its numbers may be outside its range.
#[derive(Clone, Copy, Debug, PartialEq, Eq)]
pub struct Date {
    pub year: u16,
    pub month: u8,
    pub day: u8,
}

impl Date {
    pub const YEAR_LEAST: u16 = 2007;

    pub const YEAR_MOST: u16 = 2099;

    pub const MONTH_LEAST: u8 = 1;

    pub const MONTH_MOST: u8 = 12;

    pub const DAY_LEAST: u8 = 1;

    // the months in which clocks change
    pub const MARCH: u8 = 3;

    pub const OCTOBER: u8 = 10;

    // minutes by which they do
    pub const HOUR: usize = 60;

    // stands for no date
    pub const NONE: Date = Date {
        year: 0,
        month: 0,
        day: 0,
    };

    // Whether the calendar has this date.
    pub fn exists(self) -> bool
        ensures { result ≡ is_date self }
    {
        (Date::YEAR_LEAST..=Date::YEAR_MOST).contains(&self.year)
            & (Date::MONTH_LEAST..=Date::MONTH_MOST).contains(&self.month)
            & (Date::DAY_LEAST..=days_of(self.year, self.month)).contains(&self.day)
    }

    // Whether this stands for no date.
    pub fn is_none(self) -> bool
        ensures { result ≡ is_no_date self }
    {
        self == Date::NONE
    }
}

// Every 4th year, not every 100th, but every 400th.
pub fn is_leap(year: u16) -> bool
    ensures { result ≡ is_leap year }
{
    (year % 4 == 0) & (!(year % 100 == 0) | (year % 400 == 0))
}

// The days of a month, 0 for a month that no year has: a number and no `Option`, since no day is within 0.
#[tactic(auto, unfolding(crate::specs::Calendar::days_of))]
pub fn days_of(year: u16, month: u8) -> u8
    ensures { result ≡ days_of year month }
{
    match month {
        2 => { if is_leap(year) { 29 } else { 28 } }
        4 | 6 | 9 | 11 => 30,
        1 | 3 | 5 | 7 => 31,
        8 | 10 | 12 => 31,
        0 | 13..=255 => 0,
    }
}

// The minutes that a month gains as clocks go back.
#[tactic(auto, unfolding(crate::specs::Calendar::gained_in))]
pub fn gained(month: u8) -> usize
    ensures { result ≡ gained_in month }
{
    if month == Date::OCTOBER {
        Date::HOUR
    } else {
        0
    }
}

// The minutes that a month loses as clocks go on.
#[tactic(auto, unfolding(crate::specs::Calendar::lost_in))]
pub fn lost(month: u8) -> usize
    ensures { result ≡ lost_in month }
{
    if month == Date::MARCH { Date::HOUR } else { 0 }
}

// Whether a day is a Sunday.
pub fn is_sunday(year: u16, month: u8, day: u8) -> bool
    ensures { result ≡ is_sunday year month day }
{
    day_number(year, month, day) % 7 == 0
}
