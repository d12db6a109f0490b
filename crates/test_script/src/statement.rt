// Rows of a settlement.
ghost use Rattle.std.specs.Prelude.{◌<◌};

use commands::refusal::Refusal;
use lister_rows::row::Row;
use lister_rows::rows::{line_row, totals_row, window_row};
use rules::statement::{Available, Line, Statement};
use std::io;

fn print_row(rt: &impl Print, row: Row) -> io::Result<()> {
    rt.write_all(row.bytes())
}

// The first line and each `step` on.
fn print_lines(rt: &impl Print, lines: &[Line], step: usize) -> io::Result<()>
    requires { 0 < step }
{
    for l in lines.iter().step_by(step) {
        print_row(rt, line_row(*l))?;
    }
    Ok(())
}

// The entries of windows.
fn print_windows(rt: &impl Print, windows: &[Available]) -> io::Result<()> {
    for (n, a) in (1..).zip(windows) {
        print_row(rt, window_row(n, *a))?;
    }
    Ok(())
}

// The rows of a statement, or of a refusal. Of step 0 only the totals.
fn print_statement(
    rt: &impl Print,
    s: Result<Statement, Refusal>,
    records: &[Line],
    nwindows: usize,
    step: u16,
) -> io::Result<()> {
    match s {
        Ok(t) => {
            if step > 0 {
                print_lines(rt, &records[..t.lines.min(records.len())], step as usize)?;
                print_windows(rt, &t.windows[..nwindows.min(128)])?;
            }
            print_row(rt, totals_row(t))
        }
        Err(refusal) => println!(rt; "R {}", refusal.number()),
    }
}

// A settlement into records, each of which held `before`; and how many still hold it.
pub(crate) fn print_month(
    rt: &impl Print,
    s: Result<Statement, Refusal>,
    records: &[Line],
    before: Line,
    nwindows: usize,
    step: u16,
) -> io::Result<()> {
    print_statement(rt, s, records, nwindows, step)?;
    let all = records.len();
    let lines = match s {
        Ok(t) => t.lines,
        Err(_) => 0,
    };
    let kept = records.iter().filter(|l| **l == before).count();
    println!(rt; "K {all} {lines} {kept}")
}
