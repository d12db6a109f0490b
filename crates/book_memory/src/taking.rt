// Readings of either kind, taken into a sound book whose open span this is. One that the book refuses is left for `enter_known`, which has the
// number. A month has 44,640 readings, and none of them changes the book: handing it through each of them took most of the time.
ghost use Rattle.std.specs.Prelude.{◌≡◌, cond, ◌<◌, T, length};
ghost use Rattle.commands.specs.Command.{revised_as};
ghost use Rattle.commands.specs.Input.{is_reading, input_refusal};
ghost use Rattle.book_memory.specs.Lent.{Becomes, held, held_mut};
ghost use Rattle.book_memory.specs.Meter.{written_at, put_meter, takes_reading};

use crate::lent::{Lent, LentMut};
use commands::contract::Contract;
use commands::entries::{Command, Reading, Revision};

// Takes a plain reading, and says whether it did.
pub fn take_reading(span: usize, r: Reading, memory: &mut LentMut<'_>) -> bool
    ensures { (result ≡ takes_reading span (held_mut memory.old) (Command.Reading r))
        × Becomes memory.old (cond result (put_meter (held_mut memory.old) (Command.Reading r)) (held_mut memory.old)) memory.new }
{
    if r.input_refusal().is_err() {
        return false;
    }
    take_metered(span, Contract::PLAIN, r, memory)
}

// Takes a revision, and says whether it did.
pub fn take_revision(span: usize, v: Revision, memory: &mut LentMut<'_>) -> bool
    ensures { (result ≡ takes_reading span (held_mut memory.old) (Command.Revision v))
        × Becomes memory.old (cond result (put_meter (held_mut memory.old) (Command.Revision v)) (held_mut memory.old)) memory.new }
{
    if v.input_refusal().is_err() {
        return false;
    }
    take_metered(span, v.number, v.reading, memory)
}

// The same of a reading of any revision whose operands are not turned down. Two parameters and a clause: the pair is `Revision`, which may not be plain.
fn take_metered(span: usize, number: u8, r: Reading, memory: &mut LentMut<'_>) -> bool
    requires { input_refusal (revised_as number r) ≡ 0 }
    ensures { (result ≡ takes_reading span (held_mut memory.old) (revised_as number r))
        × Becomes memory.old (cond result (put_meter (held_mut memory.old) (revised_as number r)) (held_mut memory.old)) memory.new }
{
    let taken = is_taken(span, number, r, memory.read());
    if taken {
        put_reading(number, r, memory);
    }
    taken
}

// Whether it is taken.
fn is_taken(span: usize, number: u8, r: Reading, memory: Lent<'_>) -> bool
    requires { input_refusal (revised_as number r) ≡ 0 }
    ensures { result ≡ takes_reading span (held memory.entry) (revised_as number r) }
{
    let at = r.minute.0 as usize;
    if !memory.has_room(at) {
        return false;
    }
    (at < span) & !memory.not_above(number, r.minute)
}

// Puts a reading into its minute's cell, and its revision into the minute's byte.
pub fn put_reading(number: u8, r: Reading, memory: &mut LentMut<'_>)
    requires { (r.minute.0 < length memory.old.meter.now) × (r.minute.0 < length memory.old.revisions.now) × T (is_reading r.kw.0) }
    ensures { Becomes memory.old (written_at r.minute.0 r.kw.0 number (held_mut memory.old)) memory.new }
{
    let at = r.minute.0 as usize;
    memory.meter[at] = r.kw.0 as i32;
    memory.revisions[at] = number;
}
