// A minute as a place: its cell in meter memory, and its period in a table of the month's periods.
ghost use Rattle.std.specs.Prelude.{◌≡◌, ◌/◌};

use commands::contract::Contract;
use energy::units::Minutes;

// The places of a table of periods: those of the longest month and one more, so that the minute at which the last of them ends has a place too.
pub const PLACES: usize = 1491;

// The cell of a minute.
pub fn cell_of(m: Minutes) -> usize
    ensures { result ≡ m.0 }
{
    m.0 as usize
}

// The place of a minute's period, from 0.
pub fn place_of(m: Minutes) -> usize
    ensures { result ≡ m.0 / 30 }
{
    (m.0 / Contract::PERIOD.0) as usize
}
