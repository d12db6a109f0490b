// The script's text: a line, its letter, and the numbers in it.

// A line of a script, without its end.
#[derive(Clone, Copy)]
pub(crate) struct ScriptLine<'a> {
    pub text: &'a [u8],
}

impl<'a> ScriptLine<'a> {
    // The line that stands before a line feed or at the text's end.
    pub(crate) fn new(piece: &'a [u8]) -> ScriptLine<'a> {
        ScriptLine {
            text: piece.strip_suffix(b"\n").unwrap_or(piece),
        }
    }

    // Its first byte; of an empty line, that of a heading.
    pub(crate) fn letter(self) -> u8 {
        self.text.first().copied().unwrap_or(b'#')
    }

    // How many numbers it has behind its first: each has a space before it.
    pub(crate) fn further_numbers(self) -> usize {
        let spaces = self.text.iter().filter(|b| **b == b' ').count();
        spaces.saturating_sub(1)
    }

    // The number after so many spaces, 0 past the line's end.
    pub(crate) fn at<N: Number>(self, spaces: usize) -> N {
        let mut words = self.text.split(|b| *b == b' ');
        N::of(words.nth(spaces).unwrap_or(b""))
    }
}

// A number as a script writes it. What its type cannot hold is wrapped.
pub(crate) trait Number: Copy {
    fn of(word: &[u8]) -> Self;
}

// One digit more, which is the last four bits of its byte. What is longer than 19 digits loses its first ones.
fn with_digit(n: u64, c: u8) -> u64 {
    n % 1000000000000000000 * 10 + (c % 16) as u64
}

impl Number for u64 {
    fn of(word: &[u8]) -> u64 {
        let digits = word.iter().filter(|b| b.is_ascii_digit());
        digits.fold(0, |n, b| with_digit(n, *b))
    }
}

impl Number for u8 {
    fn of(word: &[u8]) -> u8 {
        (u64::of(word) % 256) as u8
    }
}

impl Number for u16 {
    fn of(word: &[u8]) -> u16 {
        (u64::of(word) % 65536) as u16
    }
}

impl Number for u32 {
    fn of(word: &[u8]) -> u32 {
        (u64::of(word) % 4294967296) as u32
    }
}

impl Number for usize {
    fn of(word: &[u8]) -> usize {
        u64::of(word) as usize
    }
}

impl Number for i64 {
    fn of(word: &[u8]) -> i64 {
        let n = (u64::of(word) % 9223372036854775808) as i64;
        if word.starts_with(b"-") { 0 - n } else { n }
    }
}
