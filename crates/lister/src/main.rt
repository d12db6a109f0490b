// The lister: a unit file on standard input, its listing on standard output. Meter memory and revision memory hold 11 days.
#![tactic(auto)]

mod input;
mod output;
mod piece;
mod turn;

use book_memory::lent::LentMut;
use commands::contract::Contract;
use lister_page::BYTES;
use std::io;

fn main(rt: HostRuntime) -> io::Result<()> {
    let mut meter = [Contract::NO_READING; 15840];
    let mut revisions = [Contract::PLAIN; 15840];
    let mut buffer = [0u8; 61440];
    let mut rows = [0u8; BYTES];
    let mut input = rt.stdin();
    let n = input::list_input(
        &mut input,
        &mut buffer,
        &mut LentMut {
            meter: &mut meter,
            revisions: &mut revisions,
        },
        &mut rows,
    );
    rt.write_all(&rows[..n])
}
