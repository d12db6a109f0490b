// Runs the checked figures that are about energy and money alone, F3, F4, F5, F8 and F10, and prints what it got.
#![tactic(auto)]

ghost use Rattle.energy.specs.Number.{Upto, Within};

use energy::limits::OutOfRange;
use energy::money::{
    capped_kwh, delivered_kwh, expected_kwh, kwh_of, pay, pay_period, payment_pence,
};
use energy::quarters::{delivered, expected};
use energy::ramp::ramp_minutes;
use energy::round::nearest;
use energy::units::{Kw, Kwh, Minutes, Pence};
use std::io;

// What paying answers.
fn print_paid(rt: &impl Print, paid: Result<Pence, OutOfRange>) -> io::Result<()> {
    match paid {
        Ok(pence) => println!(rt; "{} pence", pence.0),
        Err(refusal) => println!(rt; "{refusal}"),
    }
}

// What rounding answers.
fn print_rounded(rt: &impl Print, rounded: Result<i64, OutOfRange>) -> io::Result<()> {
    match rounded {
        Ok(n) => println!(rt; "{n}"),
        Err(refusal) => println!(rt; "{refusal}"),
    }
}

// F3 and F4: quarters as kWh.
fn energy_row(rt: &impl Print, quarters: i64) -> io::Result<()> {
    println!(rt; "{quarters} quarters: {} kWh", kwh_of(quarters).0)
}

// F5: the minutes of a ramp.
fn ramp_row(rt: &impl Print, kw: Kw, ramp: u32) -> io::Result<()>
    requires { Upto 4294967295 kw.0 }
{
    println!(rt;
        "{} kW at {ramp} a minute: {} minutes",
        kw.0,
        ramp_minutes(kw, ramp)
    )
}

// F8: the pence of a period of F1's contract.
fn period_row(rt: &impl Print, p: u32) -> io::Result<()> {
    print!(rt; "a period of 12000 kW at 900, P {p}: ")?;
    print_paid(rt, pay_period(Kw(12000), 900, p))
}

// F10: the pence for kWh at a rate.
fn payment_row(rt: &impl Print, k: i64, rate: u32) -> io::Result<()> {
    print!(rt; "{k} kWh at {rate}: ")?;
    print_paid(rt, pay(Kwh(k), rate))
}

// Rounding by any divisor.
fn rounding_row(rt: &impl Print, n: i64, d: u32) -> io::Result<()> {
    print!(rt; "{n} / {d}: ")?;
    print_rounded(rt, nearest(n, d))
}

#[derive(Clone, Copy)]
struct Line {
    expected: Kwh,
    delivered: Kwh,
    capped: Kwh,
    pence: Pence,
}

// A ramp of six minutes for 12,000 kW at 30,000 pence per MWh, as F1's first line is, with the same reading in each minute.
fn six_minutes(kind: u8, base: i32, reading: i32) -> Line
    requires { Within 2000000 base × Within 500000 reading }
{
    let meter = [reading; 6];
    let expected = expected_kwh(expected(Kw(12000), false, Minutes(6)));
    let delivered = delivered_kwh(delivered(kind, base, &meter, 0, 6));
    let capped = capped_kwh(expected, delivered);
    Line {
        expected,
        delivered,
        capped,
        pence: payment_pence(capped, 30000),
    }
}

// The kWh expected, delivered and capped, and the pence.
fn line_row(rt: &impl Print, l: Line) -> io::Result<()> {
    println!(rt;
        "{} {} {} {}",
        l.expected.0, l.delivered.0, l.capped.0, l.pence.0
    )
}

// Numbers outside their ranges get 3.
fn refusals(rt: &impl Print) -> io::Result<()> {
    rounding_row(rt, 7, 0)?;
    payment_row(rt, 500001, 30)?;
    period_row(rt, 31)
}

// A generator below and above what is expected, then a demand reducer whose readings fall and rise.
fn lines(rt: &impl Print) -> io::Result<()> {
    line_row(rt, six_minutes(0, 4000, 6000))?;
    line_row(rt, six_minutes(0, 4000, 8500))?;
    line_row(rt, six_minutes(1, 24000, 1000))?;
    line_row(rt, six_minutes(1, 4000, 6000))
}

fn main(rt: HostRuntime) -> io::Result<()> {
    // F3
    energy_row(&rt, 120)?;
    energy_row(&rt, 119)?;
    // F4
    energy_row(&rt, -120)?;
    energy_row(&rt, -121)?;
    // F5
    ramp_row(&rt, Kw(12000), 5000)?;
    // F8
    period_row(&rt, 1)?;
    period_row(&rt, 30)?;
    // F10
    payment_row(&rt, 50, 30)?;
    payment_row(&rt, -50, 30)?;
    // a half to the larger
    rounding_row(&rt, 5, 2)?;
    rounding_row(&rt, -5, 2)?;
    refusals(&rt)?;
    lines(&rt)
}
