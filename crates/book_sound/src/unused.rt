// The entries of a table that are not in use.
ghost use Rattle.std.specs.Prelude.{◌≡◌};
ghost use Rattle.energy.specs.Lists.{all};

// Whether each of these entries is the one that stands for none.
pub fn unused<T: PartialEq>(entries: &[T], none: &T) -> bool
    ensures { result ≡ all (λ e. T.eq e none.now) entries.now }
{
    entries.iter().all(|e| *e == *none)
}
