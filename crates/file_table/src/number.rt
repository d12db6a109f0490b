// Numbers of a few bytes, high byte first.
ghost use Rattle.std.specs.Prelude.{◌≡◌, ◌≤◌, length};
ghost use Rattle.rules.specs.File.{word_from, bytes_of};

// The number that bytes say.
pub fn number_in(bytes: &[u8]) -> u64
    requires { length bytes.now ≤ 4 }
    ensures { result ≡ word_from 0 bytes.now }
{
    let mut number = 0;
    for b in bytes {
        number = number * 256 + u64::from(*b);
    }
    number
}

// A number into all of the lent bytes, from the lowest up. By index: of what `iter_mut().rev()` lent out, a proof knows the length alone.
// Not by `to_be_bytes`, which makes eight: as many as are lent is promised.
pub fn put_number(number: u64, out: &mut [u8])
    ensures { out.new ≡ bytes_of (length out.old) number }
{
    let mut rest = number;
    for i in (0..out.len()).rev() {
        out[i] = (rest % 256) as u8;
        rest /= 256;
    }
}
