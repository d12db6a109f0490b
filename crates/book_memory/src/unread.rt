// Minutes without a reading: a date asks that there be no others.
ghost use Rattle.std.specs.Prelude.{◌≡◌, ◌≤◌, length, get_or};
ghost use Rattle.energy.specs.Lists.{any, between};
ghost use Rattle.commands.specs.Input.{is_reading};
ghost use Rattle.book_memory.specs.Meter.{missing};

use crate::holds_reading;

// Whether one of the first n cells holds a reading. Each is looked at: with no early end the compiler tests several at a time, and mostly none holds one.
// A `fold` over the same cells takes more than twice as long.
#[tactic(auto, using(std::proofs::lemmas::List::Sums::fold_more, crate::proofs::Cells::any_cell))]
pub fn any_reading(meter: &[i32], n: usize) -> bool
    requires { n ≤ length meter.now }
    ensures { result ≡ any (λ m. is_reading (get_or meter.now m missing)) (between 0 n) }
{
    let cells = &meter[..n];
    let mut found = false;
    for cell in cells {
        found |= holds_reading(*cell);
    }
    found
}
