// The operands of a command, as numbers without a sign.
ghost use Rattle.std.specs.Prelude.{◌≡◌, ◌≤◌, length};
ghost use Rattle.rules.specs.File.{byte_of, operands_of, unsigned_of};
ghost use Rattle.commands.specs.declared.entries.Command.TheVariants.{Contract as contractᶜ};
ghost use Rattle.file_table.specs.Operands.{padded};

use commands::contract::Contract;
use commands::entries::Command;
use file_table::table::{
    CLOSE_BYTE, CONTRACT_BYTE, DATE_BYTE, DEFAULT_BYTE, INSTRUCTION_BYTE, READING_BYTE,
    REVISION_BYTE, WINDOW_BYTE,
};

// A command's byte.
pub fn byte_of(command: Command) -> u8
    ensures { result ≡ byte_of command }
{
    match command {
        Command::Contract(_) => CONTRACT_BYTE,
        Command::Date(_) => DATE_BYTE,
        Command::Window(_) => WINDOW_BYTE,
        Command::Instruction(_) => INSTRUCTION_BYTE,
        Command::Default(_) => DEFAULT_BYTE,
        Command::Reading(_) => READING_BYTE,
        Command::Revision(_) => REVISION_BYTE,
        Command::Close => CLOSE_BYTE,
    }
}

// A signed number as four bytes say it, two's complement; 0 for one that is too far below 0 for them.
// Not by `i32::cast_unsigned`: a number that four bytes do not hold would have to be wrapped first, and the rules keep it as it is.
fn unsigned(number: i64) -> u64
    ensures { result ≡ unsigned_of number }
{
    let size = number.unsigned_abs();
    if number < 0 {
        4294967296_u64.saturating_sub(size)
    } else {
        size
    }
}

// Some operands, and zeros after them.
#[tactic(auto, unfolding(file_table::specs::Operands::padded))]
fn padded(operands: &[u64]) -> [u64; 11]
    requires { length operands.now ≤ 11 }
    ensures { result ≡ padded operands.now }
{
    let mut v = [0; 11];
    v[..operands.len()].copy_from_slice(operands);
    v
}

fn contract_operands(k: Contract) -> [u64; 11]
    ensures { result ≡ operands_of (contractᶜ k) }
{
    [
        k.days.into(),
        k.kind.into(),
        k.service.into(),
        k.contracted.0.unsigned_abs(),
        k.rampup.into(),
        k.rampdown.into(),
        k.response.0.into(),
        k.recovery.0.into(),
        k.availability.into(),
        k.utilisation.into(),
        k.optional.into(),
    ]
}

// The operands of a command, in the table's order, and zeros after them.
#[tactic(auto, unfolding(file_table::specs::Operands::padded))]
pub fn operands_of(command: Command) -> [u64; 11]
    ensures { result ≡ padded (operands_of command) }
{
    match command {
        Command::Contract(k) => contract_operands(k),
        Command::Date(d) => padded(&[d.year.into(), d.month.into(), d.day.into()]),
        Command::Window(w) => padded(&[w.start.0.into(), w.end.0.into(), w.verdict.into()]),
        Command::Instruction(i) => padded(&[i.issue.0.into(), i.cease.0.into()]),
        Command::Default(d) => padded(&[d.minute.0.into(), d.kind.into(), d.reach.into()]),
        Command::Reading(r) => padded(&[r.minute.0.into(), unsigned(r.kw.0)]),
        Command::Revision(v) => {
            let r = v.reading;
            padded(&[r.minute.0.into(), v.number.into(), unsigned(r.kw.0)])
        }
        Command::Close => padded(&[]),
    }
}
