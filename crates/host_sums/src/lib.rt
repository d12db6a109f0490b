// A statement's sums as numbers.
#![tactic(auto)]

ghost use Rattle.std.specs.Prelude.{◌≡◌, ◌++◌, ◌*◌, ◌≤◌, ◌<◌, ◌^◌, length, take, drop};
ghost use Rattle.energy.specs.Lists.{concat_map};
ghost use Rattle.host_sums.specs.Sums.{pair_of, sum_count, sums_of, totals_of};

use rules::statement::{Available, Statement};

// How many numbers a statement's sums are.
pub const SUMS: usize = 262;

// The first six numbers.
fn put_totals(sums: &mut [i64], s: &Statement, windows: usize)
    requires { (6 ≤ length sums.old) × (s.now.lines < 2 ^ 63) × (windows < 2 ^ 63) }
    ensures { sums.new ≡ totals_of s.now windows ++ drop 6 sums.old }
{
    sums[..6].copy_from_slice(&[
        s.lines as i64,
        windows as i64,
        s.capped.0,
        s.utilisation.0,
        s.availability.0,
        s.total.0,
    ]);
}

// Two numbers for each window's place.
fn put_entries(pairs: &mut [i64], entries: &[Available])
    requires { length pairs.old ≡ 2 * length entries.now }
    ensures { pairs.new ≡ concat_map pair_of entries.now }
{
    // by index: once a slice's chunks were lent, no element of it is known
    for (i, a) in entries.iter().enumerate() {
        pairs[2 * i] = i64::from(a.periods);
        pairs[2 * i + 1] = a.pence.0;
    }
}

// All 262, for a statement of so many windows.
pub fn put_sums(sums: &mut [i64], s: &Statement, windows: usize)
    requires { (sum_count ≤ length sums.old) × (s.now.lines < 2 ^ 63) × (windows < 2 ^ 63) }
    ensures { sums.new ≡ sums_of s.now windows ++ drop sum_count sums.old }
{
    put_totals(sums, s, windows);
    put_entries(&mut sums[6..SUMS], &s.windows);
}
