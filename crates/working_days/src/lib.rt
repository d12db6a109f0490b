// Which days of a dated month are working days: neither a Sunday nor a bank holiday.
#![tactic(auto)]

ghost use Rattle.std.specs.Prelude.{◌≡◌, cond, [], ◌∷◌};
ghost use Rattle.calendar.specs.Calendar.{is_no_date};
ghost use Rattle.working_days.specs.Days.{day_kind, DayOf, is_off};

use book::Book;
use calendar::{Date, is_sunday};
use commands::refusal::Refusal;

// The kinds of a day of a month.
#[derive(Clone, Copy, Debug, PartialEq, Eq)]
pub enum Day {
    Working,
    NonWorking,
}

// The kind of a day of a book's month, from 1, where these days are holidays; none where the month has no such day. Refused of a book that no list of
// commands leaves.
#[tactic(auto, using(crate::proofs::Asked::of_book), unfolding(crate::specs::Days::day_book))]
pub fn day_of(b: Book, day: u32, holidays: &[u32]) -> Result<Option<Day>, Refusal>
    ensures { DayOf b day holidays.now result }
{
    if !b.sound() {
        return Err(Refusal::NotReached);
    }
    Ok(kind_of(b.date, b.contract.days, day, holidays))
}

// The same of a date, zeros for none, in a month of so many days.
fn kind_of(date: Date, days: u8, day: u32, holidays: &[u32]) -> Option<Day>
    ensures { result ≡ day_kind (cond (is_no_date date) [] (date ∷ [])) days day holidays.now }
{
    if date.is_none() || day == 0 || day > u32::from(days) {
        None
    } else if is_off(date, day as u8, holidays) {
        Some(Day::NonWorking)
    } else {
        Some(Day::Working)
    }
}

// Whether a day of a date's month is off.
fn is_off(date: Date, day: u8, holidays: &[u32]) -> bool
    ensures { result ≡ is_off date day holidays.now }
{
    let sunday = is_sunday(date.year, date.month, day);
    sunday || holidays.contains(&u32::from(day))
}
