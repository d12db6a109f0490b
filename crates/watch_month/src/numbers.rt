// The numbers of a month, put into their places: the figures, a column for each time of the instructions, and a number for each period. Each function asks
// that the memory is long enough and the terms fit: a host lends a slice of any length, and a struct of both would be taken apart again in each.
ghost use Rattle.std.specs.Prelude.{◌≡◌, ℕ, ◌++◌, ◌+◌, ◌≤◌, ◌<◌, drop, get_or, length};
ghost use Rattle.energy.specs.Lists.{put_at};
ghost use Rattle.watch_month.specs.MonthBy.{Figured, figures_by, flag_by, month_by, periods_by, times_by};
ghost use Rattle.watch_month.specs.MonthOf.{column};
ghost use Rattle.rules.specs.Ledger.{no_instruction};
ghost use Rattle.commands.specs.declared.entries.Instruction.{Instruction};
ghost use Rattle.watch_step.specs.Month.{month_numbers, month_periods};

use commands::contract::Contract;
use commands::entries::Instruction;
use settle_terms::Terms;
use watch_step::month::{
    CEASES, ENDS, EXPIRIES, INSTRUCTIONS, ISSUES, KIND, KW, MONTH_PERIODS, OPTIONAL, PERIODS,
    STARTS, UTILISATION,
};

// The figures, with n instructions.
fn put_figures(month: &mut [u32], t: Terms, n: usize)
    requires { (month_numbers ≤ length month.old) × Figured t × (n ≤ 64) }
    ensures { month.new ≡ put_at (figures_by t n) month.old 0 }
{
    let kw = t.kw.0;
    month[KW] = kw as u32;
    month[KIND] = t.kind as u32;
    month[UTILISATION] = t.utilisation;
    month[OPTIONAL] = t.optional;
    month[INSTRUCTIONS] = n as u32;
}

// A column of a time of the instructions, from the place `from` on. A host finds zeros after the last instruction.
fn put_column<F: Fn(Instruction) -> u32>(
    month: &mut [u32],
    from: usize,
    instructions: &[Instruction],
    time: F,
)
    requires room { (from + 64 ≤ length month.old) × (length instructions.now ≤ 64) }
    requires callable { (j : ℕ) → j < length instructions.now → F.pre time (get_or instructions.now j no_instruction) }
    ensures { (f : Instruction → ℕ) → ((x : Instruction) (n : ℕ) → F.post time x n → n ≡ f x)
        → month.new ≡ put_at (column f instructions.now) month.old from }
{
    for j in 0..Contract::INSTRUCTIONS_MOST {
        month[from + j] = if j < instructions.len() {
            time(instructions[j])
        } else {
            0
        };
    }
}

// The five columns, issue, e - U, e, cease and f, by the contract's response, U and V.
fn put_times(month: &mut [u32], t: Terms, instructions: &[Instruction])
    requires { (month_numbers ≤ length month.old) × Figured t × (length instructions.now ≤ 64) }
    ensures { month.new ≡ put_at (times_by t instructions.now) month.old 5 }
{
    let response = t.response.0 as u32;
    let up = t.upminutes.0 as u32;
    let down = t.downminutes.0 as u32;
    put_column(month, ISSUES + 1, instructions, |x| x.issue.0 as u32);
    put_column(
        month,
        STARTS + 1,
        instructions,
        |x| x.issue.0 as u32 + (response - up),
    );
    put_column(
        month,
        EXPIRIES + 1,
        instructions,
        |x| x.issue.0 as u32 + response,
    );
    put_column(month, CEASES + 1, instructions, |x| x.cease.0 as u32);
    put_column(month, ENDS + 1, instructions, |x| x.cease.0 as u32 + down);
}

// The number of period p, from 0: 1 in a live window, whatever its number, and 0 in none.
fn flag_of(live: &[u8], p: usize) -> u32
    requires { p < length live.now }
    ensures { result ≡ flag_by live.now p }
{
    if live[p] == 0 { 0 } else { 1 }
}

// The periods' numbers, after the columns.
fn put_periods(month: &mut [u32], live: &[u8])
    requires { (month_numbers ≤ length month.old) × (month_periods ≤ length live.now) }
    ensures { month.new ≡ put_at (periods_by live.now) month.old 325 }
{
    for p in 0..MONTH_PERIODS {
        month[PERIODS + p] = flag_of(live, p);
    }
}

// All of them, from what settling reads off a book.
pub(crate) fn put_month(month: &mut [u32], t: Terms, instructions: &[Instruction], live: &[u8])
    requires { (month_numbers ≤ length month.old) × Figured t × (length instructions.now ≤ 64) × (month_periods ≤ length live.now) }
    ensures { month.new ≡ month_by t instructions.now live.now ++ drop month_numbers month.old }
{
    put_figures(month, t, instructions.len());
    put_times(month, t, instructions);
    put_periods(month, live);
}
