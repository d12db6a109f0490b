// Revision memory: the bytes that a contract clears, and a minute's byte.
ghost use Rattle.std.specs.Prelude.{◌≡◌, ◌++◌, ◌≤◌, length, get_or, drop, replicate};

use commands::contract::Contract;
use energy::units::Minutes;

// A minute's byte, 0 past the end, which is a plain reading's revision: an `Option` would be unwrapped to it.
pub(crate) fn revision_at(revisions: &[u8], m: Minutes) -> u8
    ensures { result ≡ get_or revisions.now m.0 0 }
{
    revisions
        .get(m.0 as usize)
        .copied()
        .unwrap_or(Contract::PLAIN)
}

// Clears the first n bytes.
pub fn clear(revisions: &mut [u8], n: usize)
    requires { n ≤ length revisions.old }
    ensures { revisions.new ≡ replicate n 0 ++ drop n revisions.old }
{
    revisions[..n].fill(Contract::PLAIN);
}
