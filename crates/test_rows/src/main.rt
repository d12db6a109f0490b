// Prints the rows of Appendix 2's statement, then rows with the least and the largest numbers that their fields can hold.
#![tactic(auto)]

use energy::units::{Kwh, Pence};
use lister_rows::row::Row;
use lister_rows::rows::{line_row, refusal_row, totals_row, window_row};
use rules::statement::{Available, Line, Rate, Stage, Statement};
use std::io;

fn print(rt: &impl Print, row: Row) -> io::Result<()> {
    rt.write_all(row.bytes())
}

// A line of instruction 1 at the utilisation rate.
fn line(period: u32, stage: Stage, expected: i64, delivered: i64, capped: i64, pence: i64) -> Line {
    Line {
        instruction: 1,
        period,
        stage,
        rate: Rate::Utilisation,
        expected: Kwh(expected),
        delivered: Kwh(delivered),
        capped: Kwh(capped),
        pence: Pence(pence),
    }
}

fn available(periods: u32, pence: i64) -> Available {
    Available {
        periods,
        pence: Pence(pence),
    }
}

fn totals(capped: i64, utilisation: i64, availability: i64, total: i64) -> Statement {
    Statement {
        lines: 0,
        capped: Kwh(capped),
        utilisation: Pence(utilisation),
        availability: Pence(availability),
        total: Pence(total),
        windows: [available(0, 0); 128],
    }
}

fn appendix(rt: &impl Print) -> io::Result<()> {
    let lines = [
        line(1, Stage::Up, 600, 500, 500, 15000),
        line(1, Stage::Steady, 1000, 1017, 1000, 30000),
        line(2, Stage::Steady, 6000, 5750, 5750, 172500),
        line(3, Stage::Steady, 5000, 5417, 5000, 150000),
        line(3, Stage::Down, 500, 750, 500, 15000),
        line(4, Stage::Down, 100, 50, 50, 1500),
    ];
    for l in &lines {
        print(rt, line_row(*l))?;
    }
    print(rt, window_row(1, available(6, 32400)))?;
    print(rt, totals_row(totals(12800, 384000, 32400, 416400)))
}

fn extremes(rt: &impl Print) -> io::Result<()> {
    let least = Line {
        instruction: u32::MAX,
        period: u32::MAX,
        stage: Stage::Down,
        rate: Rate::Optional,
        expected: Kwh(i64::MIN),
        delivered: Kwh(i64::MIN),
        capped: Kwh(i64::MIN),
        pence: Pence(i64::MIN),
    };
    print(rt, line_row(least))?;
    print(rt, line_row(line(0, Stage::Up, i64::MAX, 0, -1, -10)))?;
    print(rt, window_row(u32::MAX, available(u32::MAX, i64::MAX)))?;
    print(rt, window_row(0, available(0, i64::MIN)))?;
    print(rt, totals_row(totals(i64::MIN, i64::MAX, 0, -9)))?;
    print(rt, totals_row(totals(0, 0, 0, 0)))?;
    print(rt, refusal_row(24, 0))?;
    print(rt, refusal_row(u8::MAX, usize::MAX))?;
    print(rt, refusal_row(0, 10))
}

fn main(rt: HostRuntime) -> io::Result<()> {
    appendix(&rt)?;
    extremes(&rt)
}
