// All that is printed, as bytes in one buffer.
ghost use Rattle.book_memory.specs.Lent.{held};
ghost use Rattle.energy.specs.Lists.{Laid};
ghost use Rattle.lister.specs.Printed.{printed, settlement_rows};

use crate::piece::Ended;
use book_memory::lent::Lent;
use commands::refusal::Refusal;
use lister_page::{BYTES, put_listing, put_refusal};
use settle_records::Listing;
use settle_records::listed::listed;

// A settlement's listing, or its refusal with the file's length.
fn put_settlement(
    g: Result<Listing, Refusal>,
    windows: usize,
    size: usize,
    out: &mut [u8; BYTES],
) -> usize
    ensures { Laid (settlement_rows g windows size) out.old 0 out.new result }
{
    match g {
        Ok(listing) => put_listing(listing.statement, listing.lines, windows, out),
        Err(refusal) => put_refusal(refusal.number(), size, out),
    }
}

// The first refusal with its command's offset, or the settlement; how many bytes.
#[tactic(auto, unfolding(crate::specs::Printed::printed))]
pub fn put_answer(e: Ended, memory: Lent<'_>, out: &mut [u8; BYTES]) -> usize
    ensures { Laid (printed e (held memory.entry)) out.old 0 out.new result }
{
    let ended = e.answer;
    let book = e.book;
    match ended {
        Err(refusal) => put_refusal(refusal.number(), e.offset, out),
        Ok(()) => put_settlement(listed(book, memory), book.nwindows, e.offset, out),
    }
}
