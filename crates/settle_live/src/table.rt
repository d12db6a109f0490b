// A table with a byte for each place: of the month's periods.
ghost use Rattle.std.specs.Prelude.{◌≡◌, ◌≤◌, ◌<◌, get_or, length};
ghost use Rattle.settle_live.specs.Live.{Marked};

// Puts `value` into the places from `from` to `to` - 1.
pub fn mark(table: &mut [u8], from: usize, to: usize, value: u8)
    requires { (from ≤ to) × (to ≤ length table.old) }
    ensures { Marked table.old from to value table.new }
{
    table[from..to].fill(value);
}

// The number at a place.
pub fn number_at(table: &[u8], place: usize) -> usize
    requires { place < length table.now }
    ensures { result ≡ get_or table.now place 0 }
{
    usize::from(table[place])
}
