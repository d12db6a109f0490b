// Books changed by hand.
use crate::entries::{default_of, instruction_of, window_of};
use crate::text::ScriptLine;
use book::Book;
use calendar::Date;
use commands::contract::Contract;
use energy::units::{Kw, Minutes};

// Sets a field of a contract: 2 days to 12 optional rate, in the contract's order.
fn set_term(k: &mut Contract, field: u8, line: ScriptLine<'_>) {
    match field {
        2 => k.days = line.at(2),
        3 => k.kind = line.at(2),
        4 => k.service = line.at(2),
        5 => k.contracted = Kw(line.at(2)),
        6 => k.rampup = line.at(2),
        7 => k.rampdown = line.at(2),
        8 => k.response = Minutes(line.at(2)),
        9 => k.recovery = Minutes(line.at(2)),
        10 => k.availability = line.at(2),
        11 => k.utilisation = line.at(2),
        12 => k.optional = line.at(2),
        _ => {}
    }
}

// Sets a field of a date: 16 year, 17 month, 18 day.
fn set_part(d: &mut Date, field: u8, line: ScriptLine<'_>) {
    match field {
        16 => d.year = line.at(2),
        17 => d.month = line.at(2),
        _ => d.day = line.at(2),
    }
}

// Sets a field of a book: 0 agreed, 1 closed, 2 to 12 the contract's, 13 to 15 the counts of windows, instructions and defaults, 16 to 18 the date's.
fn set_field(b: &mut Book, field: u8, line: ScriptLine<'_>) {
    match field {
        0 => b.agreed = line.at::<u64>(2) != 0,
        1 => b.closed = line.at::<u64>(2) != 0,
        13 => b.nwindows = line.at(2),
        14 => b.ninstructions = line.at(2),
        15 => b.ndefaults = line.at(2),
        16..=18 => set_part(&mut b.date, field, line),
        _ => set_term(&mut b.contract, field, line),
    }
}

// Sets an entry of a table, where it has such a place.
fn set_entry<T: Copy>(table: &mut [T], at: usize, entry: T) {
    if let Some(place) = table.get_mut(at) {
        *place = entry;
    }
}

// Changes a book as a line says. A match, as in `run`; so of the fields above.
pub(crate) fn change(b: &mut Book, line: ScriptLine<'_>) {
    match line.letter() {
        b'b' => set_field(b, line.at(1), line),
        b'w' => set_entry(&mut b.windows, line.at(1), window_of(line, 2)),
        b'i' => set_entry(&mut b.instructions, line.at(1), instruction_of(line, 2)),
        _ => set_entry(&mut b.defaults, line.at(1), default_of(line, 2)),
    }
}
