// The readings of a unit file, which are most of it: taken from their bytes into lent memory, one after the other, without the book. Of either kind.
#![tactic(auto)]

ghost use Rattle.std.proofs.Common.{rules};
ghost use Rattle.std.specs.Prelude.{◌≡◌, true, cond, ℕ, ◌+◌, ◌≤◌, ◌<◌, ◌^◌, length, get_or, take, drop};
ghost use Rattle.rules.specs.File.{word_from, signed_of};
ghost use Rattle.book_memory.specs.Lent.{Same, held_mut};
ghost use Rattle.book_memory.specs.Meter.{lent};
ghost use Rattle.file_readings.specs.Run.{ranged, stands_whole, Turned, Still, Run};

use book_memory::lent::LentMut;
use book_memory::taking::{take_reading, take_revision};
use commands::contract::Contract;
use commands::entries::{Reading, Revision};
use energy::units::{Kw, Minutes};
use file_table::number::number_in;
use file_table::table::{
    KW_WIDTH, MINUTE_WIDTH, NUMBER_WIDTH, READING_BYTE, READING_LENGTH, REVISION_BYTE,
    REVISION_LENGTH,
};

// Whether a command with this byte stands at a position with all of its bytes.
fn stands_whole(s: &[u8], at: usize, byte: u8, length: u8) -> bool
    ensures { result ≡ stands_whole s.now at byte length }
{
    if s.len() <= at {
        return false;
    }
    (s[at] == byte) & (length as usize <= s.len() - at)
}

// The kW that four bytes say, where it is in a reading's range; where it is not, some number that is not either. Raised by as much as a reading
// can be below 0, it needs no case for its sign: with one, the compiler reads the four bytes one by one.
fn near_kw(number: u64) -> i64
    requires { number < 2 ^ 32 }
    ensures { ranged result ≡ ranged (signed_of number) }
{
    let most = Contract::READING_MOST;
    let raised = (number + most.0 as u64) % 4294967296;
    raised as i64 - most.0
}

// The reading whose minute and whose kW stand at these positions, its kW as above.
fn near_reading(s: &[u8], minute: usize, kw: usize) -> Reading
    requires { (minute + 2 ≤ length s.now) × (kw + 4 ≤ length s.now) }
    ensures { (result.minute.0 ≡ word_from 0 (take 2 (drop minute s.now)))
        × (ranged result.kw.0 ≡ ranged (signed_of (word_from 0 (take 4 (drop kw s.now))))) }
{
    let after_minute = minute + MINUTE_WIDTH as usize;
    let after_kw = kw + KW_WIDTH as usize;
    let at = Minutes(number_in(&s[minute..after_minute]) as u16);
    let near = Kw(near_kw(number_in(&s[kw..after_kw])));
    Reading {
        minute: at,
        kw: near,
    }
}

// A kind of reading: its byte, the length of a command of it, and how the one that stands at a position is taken.
trait Kind {
    ghost BYTE: { ℕ };

    ghost LENGTH: { ℕ };

    const BYTE: u8;

    const LENGTH: u8;

    // Takes the one that stands whole at a position, and says whether it did.
    fn take(span: usize, s: &[u8], at: usize, memory: &mut LentMut<'_>) -> bool
        requires { (at + LENGTH ≤ length s.now) × (get_or s.now at 0 ≡ BYTE) }
        ensures { Turned span s.now at (held_mut memory.old) (cond result (at + LENGTH) at) (held_mut memory.new)
            × Same memory.old memory.new };

    ghost some: { 0 < LENGTH };
}

// Two impls, so that the compiler has the places of each kind's operands as numbers.
struct Plain;

impl Kind for Plain {
    ghost BYTE = { 0x4D };

    ghost LENGTH = { 7 };

    ghost some = { Prim.search rules };

    const BYTE: u8 = READING_BYTE;

    const LENGTH: u8 = READING_LENGTH;

    fn take(span: usize, s: &[u8], at: usize, memory: &mut LentMut<'_>) -> bool {
        let minute = at + 1;
        let kw = minute + MINUTE_WIDTH as usize;
        let r = near_reading(s, minute, kw);
        take_reading(span, r, memory)
    }
}

struct Revised;

impl Kind for Revised {
    ghost BYTE = { 0x52 };

    ghost LENGTH = { 8 };

    ghost some = { Prim.search rules };

    const BYTE: u8 = REVISION_BYTE;

    const LENGTH: u8 = REVISION_LENGTH;

    fn take(span: usize, s: &[u8], at: usize, memory: &mut LentMut<'_>) -> bool {
        let minute = at + 1;
        let number = minute + MINUTE_WIDTH as usize;
        let kw = number + NUMBER_WIDTH as usize;
        let reading = near_reading(s, minute, kw);
        let v = Revision {
            number: s[number],
            reading,
        };
        take_revision(span, v, memory)
    }
}

// Takes the readings of one kind from a position on, and says where the first command stands that is none of them or is not taken. A loop for each
// kind, so that the compiler has each reading's length and its place for the kW as numbers; a `while`, since only the bytes say where it ends.
fn take_run<K: Kind>(span: usize, s: &[u8], start: usize, memory: &mut LentMut<'_>) -> usize
    ensures run { Run span s.now start (held_mut memory.old) result (held_mut memory.new) }
    ensures still { stands_whole s.now result K.BYTE K.LENGTH ≡ true → Still span s.now result (held_mut memory.new) }
    ensures same { Same memory.old memory.new }
{
    let mut at = start;
    while stands_whole(s, at, K::BYTE, K::LENGTH) {
        if !K::take(span, s, at, memory) {
            return at;
        }
        at += K::LENGTH as usize;
    }
    at
}

// Takes the readings of either kind from a position on, and says where the first command stands that is none or is not taken in the span. A
// `loop`, since it ends where neither kind goes on, which no iterator counts.
fn take_all(span: usize, s: &[u8], start: usize, memory: &mut LentMut<'_>) -> usize
    ensures run { Run span s.now start (held_mut memory.old) result (held_mut memory.new) }
    ensures still { Still span s.now result (held_mut memory.new) }
    ensures same { Same memory.old memory.new }
{
    let mut from = start;
    loop {
        let plain = take_run::<Plain>(span, s, from, memory);
        let both = take_run::<Revised>(span, s, plain, memory);
        if both == from {
            return from;
        }
        from = both;
    }
}

// The same of two slices, as a struct of its own: while others know its address, the compiler reads it again after each reading that is put, and
// entering a file takes 6 % longer, one with a revision for every reading 10 %.
fn take_alone(span: usize, s: &[u8], start: usize, meter: &mut [i32], revisions: &mut [u8]) -> usize
    ensures run { Run span s.now start (lent meter.old revisions.old) result
        (lent meter.new revisions.new) }
    ensures still { Still span s.now result (lent meter.new revisions.new) }
{
    take_all(span, s, start, &mut LentMut { meter, revisions })
}

// The same of lent memory.
pub fn take_readings(span: usize, s: &[u8], start: usize, memory: &mut LentMut<'_>) -> usize
    ensures run { Run span s.now start (held_mut memory.old) result (held_mut memory.new) }
    ensures still { Still span s.now result (held_mut memory.new) }
    ensures same { Same memory.old memory.new }
{
    take_alone(span, s, start, memory.meter, memory.revisions)
}
