// A book settled into numbers for a host, and what a call answers as one number.
#![tactic(auto)]

pub mod answers;

ghost use Rattle.std.specs.Prelude.{◌≡◌, ◌<◌, ◌^◌};
ghost use Rattle.book_memory.specs.Lent.{held};
ghost use Rattle.host_settle.specs.SettleInto.{settle_into, settled_book};

use book::Book;
use book_memory::lent::Lent;
use commands::refusal::Refusal;
use host_sums::{SUMS, put_sums};
use settle_numbers::settle_numbers;

// The number under which settling a book is refused, or 0. Line and sum memory are written only where it is 0.
#[tactic(auto, unfolding(crate::specs::SettleInto::settle_into))]
pub fn settle_book(b: Book, memory: Lent<'_>, lines: &mut [i64], sums: &mut [i64]) -> u8
    requires { b.nwindows < 2 ^ 63 }
    ensures { settled_book result lines.new sums.new
        ≡ settle_into b (held memory.entry) lines.old sums.old }
{
    // no line where the sums have no room, so that this refusal, the last to be asked, alters none
    let fits = sums.len() >= SUMS;
    let room = if fits { lines.len() } else { 0 };
    let settled = settle_numbers(b, memory, &mut lines[..room]);
    match &settled {
        Ok(statement) if fits => {
            put_sums(sums, statement, b.nwindows);
            0
        }
        Ok(_) => Refusal::NoRoom.number(),
        Err(refusal) => refusal.number(),
    }
}
