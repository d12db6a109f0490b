// A whole answer as bytes in one buffer, row after row: a listing, or the row of a refusal.
#![tactic(auto)]

ghost use Rattle.std.specs.Prelude.{◌≡◌, ℕ, ◌+◌, ◌*◌, ◌≤◌, List, length, take};
ghost use Rattle.energy.specs.Lists.{Laid};
ghost use Rattle.lister_page.specs.Page.{rows_of};
ghost use Rattle.lister_rows.specs.Rows.{listing, refusal_row};

use lister_rows::row::Row;
use lister_rows::rows::{line_row, refusal_row, totals_row, window_row};
use rules::statement::{LISTED_MOST, Line, Statement};

// 719 L rows, 128 A rows and the T row, each of at most 128 bytes.
pub const BYTES: usize = 108544;

// A row where there is room for any; the position after it.
fn put_row(row: Row, out: &mut [u8], at: usize) -> usize
    requires { at + 128 ≤ length out.old }
    ensures laid { Laid row out.old at out.new result }
    ensures near { result ≤ at + 128 }
{
    let bytes = row.bytes();
    let end = at + bytes.len();
    out[at..end].copy_from_slice(bytes);
    end
}

// The rows of things, which are numbered from 1.
fn put_rows<T: Copy, F: Fn(u32, T) -> Row>(things: &[T], row: F, out: &mut [u8], at: usize) -> usize
    requires few { length things.now ≤ 719 }
    requires room { at + 128 * length things.now ≤ length out.old }
    requires callable { F.IsAlwaysCallable row }
    ensures laid { (f : ℕ → T → List ℕ) → ((n : ℕ) (x : T) (r : List ℕ) → F.post row n x r → r ≡ f n x)
        → Laid (rows_of f 1 things.now) out.old at out.new result }
    ensures near { result ≤ at + 128 * length things.now }
{
    let mut place = at;
    for (i, x) in things.iter().enumerate() {
        place = put_row(row(i as u32 + 1, *x), out, place);
    }
    place
}

// The listing of a statement with its lines, where so many windows were entered; its length. An array and a count, since for any slice there would be no room.
pub fn put_listing(
    s: Statement,
    lines: [Line; LISTED_MOST],
    windows: usize,
    out: &mut [u8; BYTES],
) -> usize
    ensures { Laid (listing s (take s.lines lines) windows) out.old 0 out.new result }
{
    let lines = &lines[..s.lines.min(LISTED_MOST)];
    let windows = &s.windows[..windows.min(128)];
    let after_lines = put_rows(lines, |_, l| line_row(l), out, 0);
    let after_windows = put_rows(windows, window_row, out, after_lines);
    put_row(totals_row(s), out, after_windows)
}

// The row of a refusal; its length.
pub fn put_refusal(number: u8, offset: usize, out: &mut [u8; BYTES]) -> usize
    ensures { Laid (refusal_row number offset) out.old 0 out.new result }
{
    put_row(refusal_row(number, offset), out, 0)
}
