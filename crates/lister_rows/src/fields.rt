// The fields of a row, each with the space before it.
ghost use Rattle.std.specs.Prelude.{[], ◌∷◌, ◌≡◌};
ghost use Rattle.lister_rows.specs.Row.{appended_to};
ghost use Rattle.lister_rows.specs.Rows.{space};

use crate::row::Row;
use itoa::Integer;

impl Row {
    // A letter.
    pub fn letter(self, b: u8) -> Row
        ensures { result ≡ appended_to self (space ∷ b ∷ []) }
    {
        self.text(&[b' ', b])
    }

    // A number as a field.
    #[tactic(auto, using(crate::proofs::Appending::appended_twice))]
    pub fn amount<I: Integer>(self, n: I) -> Row
        ensures { result ≡ appended_to self (space ∷ I.text n) }
    {
        self.put(b' ').number(n)
    }
}
