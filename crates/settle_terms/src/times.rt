// The times of an instruction under a contract's terms.
ghost use Rattle.std.specs.Prelude.{◌≡◌, ◌+◌, ◌-◌, ◌≤◌, ◌<◌};

use crate::Terms;
use commands::entries::{Instruction, end_of};
use energy::units::Minutes;

impl Terms {
    // e: the minute at which the response to an instruction expires.
    pub fn expiry(self, x: Instruction) -> Minutes
        requires { x.issue.0 + self.response.0 < 65536 }
        ensures { result.0 ≡ x.issue.0 + self.response.0 }
    {
        Minutes(x.issue.0 + self.response.0)
    }

    // e - U: the first minute of the ramp up.
    pub fn start(self, x: Instruction) -> Minutes
        requires { (x.issue.0 + self.response.0 < 65536) × (self.upminutes.0 ≤ x.issue.0 + self.response.0) }
        ensures { result.0 ≡ x.issue.0 + self.response.0 - self.upminutes.0 }
    {
        Minutes(self.expiry(x).0 - self.upminutes.0)
    }

    // f: the minute at which an instruction ends, after its ramp down.
    pub fn end(self, x: Instruction) -> Minutes
        requires { x.cease.0 + self.downminutes.0 < 65536 }
        ensures { result.0 ≡ x.cease.0 + self.downminutes.0 }
    {
        Minutes(end_of(x.cease, self.downminutes.0 as u32) as u16)
    }
}

// The cell of the first of the four minutes that the base load counts, of which the last is the issue.
pub fn base_from(issue: Minutes) -> usize
    requires { 3 ≤ issue.0 }
    ensures { result ≡ issue.0 - 3 }
{
    issue.0 as usize - 3
}
