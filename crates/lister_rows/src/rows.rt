// The four kinds of row: a line, a window, the totals, a refusal. A chain for each, field by field: a list of fields would need them all of one type
// first, and they are letters and numbers of five types.
ghost use Rattle.std.specs.Prelude.{◌≡◌};
ghost use Rattle.lister_rows.specs.Rows.{line_row, rate_letter, refusal_row, stage_letter, totals_row, window_row};

use crate::row::Row;
use rules::statement::{Available, Line, Rate, Stage, Statement};

// No `From` of a stage or a rate: it could stand in `rules` alone, and `u8::from(stage)` would not say whether it is the lister's letter or a host's number.
fn stage_letter(s: Stage) -> u8
    ensures { result ≡ stage_letter s }
{
    match s {
        Stage::Up => b'U',
        Stage::Steady => b'S',
        Stage::Down => b'D',
    }
}

fn rate_letter(t: Rate) -> u8
    ensures { result ≡ rate_letter t }
{
    match t {
        Rate::Utilisation => b'C',
        Rate::Optional => b'O',
    }
}

// The L row of a line.
pub fn line_row(l: Line) -> Row
    ensures { result ≡ line_row l }
{
    let stage = stage_letter(l.stage);
    let rate = rate_letter(l.rate);
    Row::empty()
        .put(b'L')
        .amount(l.instruction)
        .amount(l.period)
        .letter(stage)
        .letter(rate)
        .amount(l.expected.0)
        .amount(l.delivered.0)
        .amount(l.capped.0)
        .amount(l.pence.0)
        .put(b'\n')
}

// The A row of window n, counted from 1.
pub fn window_row(n: u32, a: Available) -> Row
    ensures { result ≡ window_row n a }
{
    Row::empty()
        .put(b'A')
        .amount(n)
        .amount(a.periods)
        .amount(a.pence.0)
        .put(b'\n')
}

// The T row of a statement.
pub fn totals_row(s: Statement) -> Row
    ensures { result ≡ totals_row s }
{
    Row::empty()
        .put(b'T')
        .amount(s.capped.0)
        .amount(s.utilisation.0)
        .amount(s.availability.0)
        .amount(s.total.0)
        .put(b'\n')
}

// The R row of a refusal, with the offset of the command or, when settling, the file's length.
pub fn refusal_row(number: u8, offset: usize) -> Row
    ensures { result ≡ refusal_row number offset }
{
    Row::empty()
        .put(b'R')
        .amount(number)
        .amount(offset)
        .put(b'\n')
}
