// A row by value: appending hands back the longer row.
ghost use Rattle.std.specs.Prelude.{[], ◌∷◌, ◌≡◌, ◌≤◌, length};
ghost use Rattle.lister_rows.specs.Row.{appended_to};

use itoa::{Buffer, Integer};
use std::marker::Model;

// The longest row has 112 bytes: an L row with counts of ten digits and amounts of 20 bytes. Bytes past the length are zeros, so that a row is its bytes
// that count, and may be copied.
#[derive(Clone, Copy)]
pub struct Row {
    bytes: [u8; 128],
    len: usize,
}

// In contracts a row is the bytes that count.
impl Model for Row {
    ghost use Rattle.std.specs.Prelude.{◌≡◌, ℕ, ◌-◌, ◌≤◌, List, ◌++◌, length, take, drop, replicate};
    ghost use Rattle.std.proofs.Common.{arith, ap, sym, ◌∙◌, length-take-le, take-append-drop};

    ghost Value = { List ℕ };

    ghost view = { λ r. take r.len r.bytes };

    ghost invariant = { λ r. (r.len ≤ 128) × (length r.bytes ≡ 128) × (drop r.len r.bytes ≡ replicate (128 - r.len) 0) };

    ghost inverse = { λ v. record { bytes = v ++ replicate (128 - length v) 0; len = length v } };

    ghost inverse_ok = { λ r h i. record {
      bytes = (ap (λ n. take r.len r.bytes ++ replicate (128 - n) 0) (length-take-le r.len r.bytes (omega (arith, h.0, h.1)))
          ∙ ap (λ z. take r.len r.bytes ++ z) (sym h.2) ∙ take-append-drop r.len r.bytes) i;
      len = length-take-le r.len r.bytes (omega (arith, h.0, h.1)) i;
    } };
}

impl Row {
    pub fn empty() -> Row
        ensures { result ≡ [] }
    {
        Row {
            bytes: [0; 128],
            len: 0,
        }
    }

    pub fn bytes(&self) -> &[u8]
        ensures value { result.now ≡ self.now }
        ensures fits { length result.now ≤ 128 }
    {
        &self.bytes[..self.len]
    }

    // These bytes more. What a full row has no room for is left out, so that appending asks nothing of its caller.
    #[tactic(auto, using(crate::proofs::Appending::text_put))]
    pub fn text(mut self, more: &[u8]) -> Row
        ensures { result ≡ appended_to self more.now }
    {
        let at = self.len;
        let n = (128 - at).min(more.len());
        self.bytes[at..at + n].copy_from_slice(&more[..n]);
        self.len = at + n;
        self
    }

    pub fn put(self, b: u8) -> Row
        ensures { result ≡ appended_to self (b ∷ []) }
    {
        self.text(&[b])
    }

    // A number's decimal digits, and a minus sign before them where it is below 0. Not by `write!`, which may fail, and no clause of std says when.
    pub fn number<I: Integer>(self, n: I) -> Row
        ensures { result ≡ appended_to self (I.text n) }
    {
        self.text(Buffer::new().format(n).as_bytes())
    }
}
