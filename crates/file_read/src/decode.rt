// Decoding: the command that stands at a position of a unit file.
ghost use Rattle.std.specs.Prelude.{◌≡◌, ◌≤◌, length};
ghost use Rattle.rules.specs.File.{total, operands, read_at};
ghost use Rattle.file_table.specs.Operands.{padded, Narrow};

use commands::refusal::Refusal;
use file_operands::command::command_of;
use file_table::number::number_in;
use file_table::table::row_of;
use rules::file::Read;

// The operands that bytes say, by their widths.
fn operands_in(s: &[u8], widths: &[u8]) -> [u64; 11]
    requires narrow { Narrow widths.now }
    requires room { total widths.now ≤ length s.now }
    ensures { result ≡ padded (operands widths.now s.now) }
{
    let mut v = [0; 11];
    let mut rest = s;
    for (k, width) in widths.iter().enumerate() {
        let (bytes, after) = rest.split_at(usize::from(*width));
        v[k] = number_in(bytes);
        rest = after;
    }
    v
}

// What stands at a position: a command and the position after it, a refusal, or the end.
pub fn read_at(s: &[u8], at: usize) -> Read
    ensures { result ≡ read_at s.now at }
{
    if s.len() <= at {
        return Ok(None);
    }
    let byte = s[at];
    let Some(row) = row_of(byte) else {
        return Err(Refusal::UnknownCommand);
    };
    let length = usize::from(row.length);
    if s.len() - at < length {
        return Err(Refusal::CutOff);
    }
    let v = operands_in(&s[at + 1..], row.widths);
    match command_of(byte, v) {
        Some(command) => Ok(Some((command, at + length))),
        None => Err(Refusal::UnknownCommand),
    }
}
