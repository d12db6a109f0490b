// Paid periods, P, and the entries of the windows. Each default is gone through once, whatever the number of windows and periods.
ghost use Rattle.std.specs.Prelude.{◌≡◌, cond, not, ℕ, ◌≤◌, ◌<◌, min, nat_abs, length, get_or, count_by};
ghost use Rattle.commands.specs.Input.{from_to};
ghost use Rattle.energy.specs.Number.{Upto, Within};
ghost use Rattle.rules.specs.Ledger.{no_default};
ghost use Rattle.settle_terms.specs.Terms.{most_periods, period_places};
ghost use Rattle.settle_availability.specs.Paid.{DefaultMarked, DefaultsMarked, NoneMarked, Placed, Spans, availability_by, entries_by};
ghost use Rattle.settle_availability.specs.Paid.{entry_of, marked, reach_from, reach_to};

use commands::contract::Contract;
use commands::entries::{Default, Window};
use energy::money::period_pence;
use energy::units::{Kw, Pence};
use rules::statement::Available;
use settle_live::table::number_at;
use settle_terms::minutes::{PLACES, place_of};
use std::ops::Range;

// The entries of the windows, and their pence.
#[derive(Clone, Copy, Debug, PartialEq, Eq)]
pub struct Entries {
    pub windows: [Available; 128],
    pub pence: Pence,
}

// The places that a default in window w reaches: with reach 1 its own period's, with 2 the window's, with 3 those from its own period on. One of no
// known reach reaches none.
fn reach_of(w: Window, d: Default) -> Range<usize>
    ensures { (result.start ≡ reach_from w d) × (result.end ≡ reach_to w d) }
{
    let first = place_of(w.start);
    let last = place_of(w.end);
    let own = place_of(d.minute);
    match d.reach {
        Contract::REACH_PERIOD => own..own + 1,
        Contract::REACH_WINDOW => first..last,
        Contract::REACH_WINDOW_END => own..last,
        0 | 4..=255 => own..own,
    }
}

// Whether a default of this kind counts for P: one of delivery does not, nor one of no known kind.
fn counts_for_p(kind: u8) -> bool
    ensures { result ≡ from_to 1 3 kind }
{
    match kind {
        Contract::DEFAULT_DATA_SUBMISSION
        | Contract::DEFAULT_UTILISATION
        | Contract::DEFAULT_AVAILABILITY => true,
        Contract::DEFAULT_DELIVERY | 0 | 5..=255 => false,
    }
}

// Marks the places that a default reaches, and its window where it counts for P. One in no live window marks nothing.
fn mark_default(
    reached: &mut [bool],
    counted: &mut [bool],
    live: &[u8],
    windows: &[Window],
    d: Default,
)
    requires { Placed live.now windows.now (length reached.old) d × (length windows.now ≤ length counted.old) }
    ensures { DefaultMarked live.now windows.now d reached.old reached.new counted.old counted.new }
{
    let number = number_at(live, place_of(d.minute));
    if number == 0 {
        return;
    }
    let reach = reach_of(windows[number - 1], d);
    reached[reach].fill(true);
    if counts_for_p(d.kind) {
        counted[number - 1] = true;
    }
}

// The same for all defaults.
fn mark_defaults(
    reached: &mut [bool],
    counted: &mut [bool],
    live: &[u8],
    windows: &[Window],
    defaults: &[Default],
)
    requires { ((j : ℕ) → j < length defaults.now → Placed live.now windows.now (length reached.old) (get_or defaults.now j no_default))
        × (length windows.now ≤ length counted.old)
        × NoneMarked reached.old
        × NoneMarked counted.old }
    ensures { DefaultsMarked live.now windows.now defaults.now (length defaults.now) reached.new counted.new
        × (length reached.new ≡ length reached.old)
        × (length counted.new ≡ length counted.old) }
{
    for d in defaults {
        mark_default(reached, counted, live, windows, *d);
    }
}

// P: the counted windows, at most 30.
fn penalty(counted: &[bool]) -> u32
    ensures { (result ≡ min 30 (count_by (λ c. c) counted.now)) × (result ≤ 30) }
{
    let count = counted.iter().filter(|c| **c).count();
    count.min(Contract::P_MOST as usize) as u32
}

// The places that are not reached.
fn unreached(reached: &[bool]) -> u32
    requires { length reached.now ≤ most_periods }
    ensures { result ≡ count_by not reached.now }
{
    reached.iter().filter(|r| !**r).count() as u32
}

// The paid periods of a window, from what is reached of its places: none unless it is live, and all of them where there are no defaults.
fn paid_periods(reached: &[bool], defaults: usize, shown: bool) -> u32
    requires { (length reached.now ≤ most_periods) × (defaults ≡ 0 → NoneMarked reached.now) }
    ensures { (result ≡ cond shown (count_by not reached.now) 0) × (result ≤ most_periods) }
{
    if !shown {
        return 0;
    }
    if defaults == 0 {
        return reached.len() as u32;
    }
    unreached(reached)
}

// The entry of so many paid periods.
fn entry_of(periods: u32, each: Pence) -> Available
    requires { (periods ≤ most_periods) × Upto 250000000 each.0 }
    ensures { result ≡ entry_of periods (nat_abs each.0) }
{
    let pence = each * periods;
    Available { periods, pence }
}

// The entries of the windows, and the pence of all their periods.
fn entries_of(
    reached: &[bool],
    live: &[u8],
    defaults: usize,
    windows: &[Window],
    each: Pence,
) -> Entries
    requires { Spans windows.now (length windows.now)
        × (length reached.now ≡ period_places)
        × (length live.now ≡ period_places)
        × (defaults ≡ 0 → NoneMarked reached.now)
        × Upto 250000000 each.0 }
    ensures { (result ≡ entries_by live.now (marked reached.now) (nat_abs each.0) windows.now (length windows.now))
        × Within 100000000000000 result.pence.0 }
{
    let none = Available {
        periods: 0,
        pence: Pence(0),
    };
    let mut entries = [none; 128];
    let mut total: u32 = 0;
    for (i, w) in windows.iter().enumerate() {
        let from = place_of(w.start);
        let to = place_of(w.end);
        let shown = number_at(live, from) == i + 1;
        let k = paid_periods(&reached[from..to], defaults, shown);
        entries[i] = entry_of(k, each);
        total += k;
    }
    let pence = each * total;
    Entries {
        windows: entries,
        pence,
    }
}

// The availability of the first n windows of a table with these defaults, each of which may be in any window of the table.
pub fn availability(
    live: &[u8],
    windows: &[Window],
    n: usize,
    defaults: &[Default],
    kw: Kw,
    rate: u32,
) -> Entries
    requires spans { Spans windows.now n
        × (n ≤ length windows.now)
        × (length windows.now ≤ 128)
        × (length live.now ≡ period_places)
        × ((j : ℕ) → j < length defaults.now → Placed live.now windows.now period_places (get_or defaults.now j no_default)) }
    requires upto { Upto 500000 kw.0 × (rate ≤ 1000000) }
    ensures { (result ≡ availability_by live.now windows.now n defaults.now (length defaults.now) (nat_abs kw.0) rate)
        × Within 100000000000000 result.pence.0 }
{
    let mut reached = [false; PLACES];
    let mut counted = [false; 128];
    mark_defaults(&mut reached, &mut counted, live, windows, defaults);
    let p = penalty(&counted[..n]);
    let each = period_pence(kw, rate, p);
    entries_of(&reached, live, defaults.len(), &windows[..n], each)
}
