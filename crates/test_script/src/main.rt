// Runs a script from standard input: enters commands into a book, settles it, and prints what both answer.
//
// A line is a letter and numbers, one space apart. The capitals C, Y, W, I, D, M, V and Z are the commands of the unit file with their operands, Y a
// date and V a revision; each is printed with its answer and with what the book then holds. The small letters are what a test does beside them.
//   e cells kW          the empty book, with meter memory of so many cells that all hold a kW, and as many revision bytes that all hold 77
//   l cells             lends so many cells from here on, and as many revision bytes
//   t bytes             lends so many revision bytes from here on
//   m from to step kW   others write a cell, and each so many minutes on, before another
//   v from to step n    others write revision bytes in the same way
//   g minute            prints a cell and its revision byte
//   y day h h ..        prints the kind of a day of the book's month, where these days are holidays, at most 64 of them
//   b field n           sets a field of the book by hand, as w, i and d do with an entry of a table (its place, then its fields)
//   k, r                keeps the book; returns to the one kept
//   n records           lends so many records from here on, each of which holds a mark
//   s step              settles into the records lent; prints the first line and each so many on, the windows and the totals;
//                       of step 0 only the totals
//   o step              the same by `listed`, which has 719 blank records of its own
//   q                   from here to the next q, no command is printed that is taken, and no e
// After a settlement a row K says how many records there were, how many lines, and how many records hold what they held before.
// An empty line, and one that starts with #, is printed as it stands.
#![tactic(auto)]

ghost use Rattle.std.specs.Prelude.{◌≤◌, length};

mod answers;
mod change;
mod entries;
mod memory;
mod run;
mod statement;
mod text;

use crate::run::run_script;
use std::io;
use std::io::Read;

// Reads until the buffer is full, the input ends or a read fails; how many bytes it put in front. Of std's `Read`, `read_exact` does not tell how many
// those are, and `read_to_end` needs the heap. The lister has the same: no crate below both reads input, and one for these lines alone would be no plainer.
fn read_full(input: &mut impl Read, buffer: &mut [u8]) -> usize
    ensures { result ≤ length buffer.new }
{
    let mut done = 0;
    while done < buffer.len() {
        match input.read(&mut buffer[done..]) {
            Ok(0) | Err(_) => break,
            Ok(n) => done += n,
        }
    }
    done
}

fn main(rt: HostRuntime) -> io::Result<()> {
    let mut script = [0u8; 65536];
    let mut input = rt.stdin();
    let n = read_full(&mut input, &mut script);
    run_script(&rt, &script[..n])
}
