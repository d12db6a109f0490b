// The month as a step needs it, from a book: worked out once, by what settling has for it too, into memory that the caller lends.
#![tactic(auto)]

ghost use Rattle.std.specs.Prelude.{◌≡◌};
ghost use Rattle.watch_month.specs.MonthOf.{month_book, month_laid};

use crate::numbers::put_month;
use book::Book;
use commands::refusal::Refusal;
use rules::answer::Answer;
use settle_live::mark_live;
use settle_terms::minutes::PLACES;
use settle_terms::terms_of;
use watch_step::month::MONTH_NUMBERS;

mod numbers;

// 11, 26, or the numbers of the book's month. A sound book without a contract has no instruction and no window, and zeros.
pub fn month_of(b: Book, month: &mut [u32]) -> Answer
    ensures { month_laid result month.new ≡ month_book b month.old }
{
    if !b.sound() {
        return Err(Refusal::NotReached);
    }
    if month.len() < MONTH_NUMBERS {
        return Err(Refusal::NoRoom);
    }
    let k = b.contract;
    let recovery = k.recovery;
    let windows = &b.windows[..b.nwindows];
    let instructions = &b.instructions[..b.ninstructions];
    let t = terms_of(k);
    let mut live = [0; PLACES];
    mark_live(&mut live, windows, instructions, t, recovery);
    put_month(month, t, instructions, &live);
    Ok(())
}
