// The kind of a day of a book's month, as the one number that a call answers.
#![tactic(auto)]

ghost use Rattle.std.specs.Prelude.{◌≡◌};
ghost use Rattle.host_day.specs.DayAnswer.{day_answer, AnswersDay};

use book::Book;
use commands::refusal::Refusal;
use host_settle::answers::pack;
use working_days::{Day, day_of};

// What the call answers for what is known of a day.
fn answer_of(day: Result<Option<Day>, Refusal>) -> u64
    ensures { result ≡ day_answer day }
{
    match day {
        Ok(None) => pack(0, 0),
        Ok(Some(Day::Working)) => pack(0, 1),
        Ok(Some(Day::NonWorking)) => pack(0, 2),
        Err(refusal) => pack(refusal.number(), 0),
    }
}

// Asks for a day of a book's month, where these days are holidays.
pub fn answer_day(b: Book, day: u32, holidays: &[u32]) -> u64
    ensures { AnswersDay b day holidays.now result }
{
    answer_of(day_of(b, day, holidays))
}
