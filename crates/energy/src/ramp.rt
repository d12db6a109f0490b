// Minutes of a ramp.
ghost use Rattle.std.specs.Prelude.{◌≡◌, nat_abs};
ghost use Rattle.energy.specs.Number.{Upto, ceiling};

use crate::units::Kw;

// kW at a ramp in kW a minute, taken up to a whole minute. A ramp of 0 takes 0 minutes, as the definition has it. The number is a plain one: before a contract
// is checked a ramp may take more minutes than a month has.
pub fn ramp_minutes(kw: Kw, ramp: u32) -> u32
    requires { Upto 4294967295 kw.0 }
    ensures { result ≡ ceiling (nat_abs kw.0) ramp }
{
    if ramp == 0 {
        return 0;
    }
    (kw.0 as u64).div_ceil(ramp as u64) as u32
}
