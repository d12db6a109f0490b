// A command as bytes in lent memory, by the table of the unit file.
#![tactic(auto)]

ghost use Rattle.std.specs.Prelude.{◌≡◌, ◌+◌, ◌≤◌, leb, length};
ghost use Rattle.energy.specs.Lists.{put_at};
ghost use Rattle.rules.specs.File.{byte_of, total, write, write_operands};
ghost use Rattle.file_table.specs.Table.{RowOf};
ghost use Rattle.file_encode.specs.Write.{write_at};

use commands::entries::Command;
use commands::refusal::Refusal;
use file_operands::operand::{byte_of, operands_of};
use file_table::number::put_number;
use file_table::table::{Row, row_of};

// The row of a command: its byte is one of the table's.
fn row_for(command: Command) -> Row
    ensures { RowOf (byte_of command) result }
{
    row_of(byte_of(command)).unwrap()
}

// The number of bytes that a command is written as.
pub fn length_of(command: Command) -> usize
    ensures { result ≡ length (write command) }
{
    let row = row_for(command);
    usize::from(row.length)
}

// Whether some bytes from a position on end within so many.
fn room_for(size: usize, at: usize, length: usize) -> bool
    ensures { result ≡ leb (at + length) size }
{
    at <= size && length <= size - at
}

// Operands from a position on, by their widths.
fn put_operands(out: &mut [u8], at: usize, widths: &[u8], v: [u64; 11])
    requires { at + total widths.now ≤ length out.old }
    ensures { out.new ≡ put_at (write_operands widths.now v) out.old at }
{
    let mut place = at;
    for (width, number) in widths.iter().zip(&v) {
        let next = place + usize::from(*width);
        put_number(*number, &mut out[place..next]);
        place = next;
    }
}

// A command from a position on; the position after it. Where the bytes do not reach, nothing is altered.
pub fn write_at(command: Command, out: &mut [u8], at: usize) -> Result<usize, Refusal>
    ensures value { result ≡ (write_at command out.old at).answer }
    ensures out_after { out.new ≡ (write_at command out.old at).bytes }
{
    let row = row_for(command);
    let length = usize::from(row.length);
    if !room_for(out.len(), at, length) {
        return Err(Refusal::NoRoom);
    }
    let v = operands_of(command);
    out[at] = row.byte;
    put_operands(out, at + 1, row.widths, v);
    Ok(at + length)
}
