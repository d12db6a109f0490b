// Commands from their operands.
ghost use Rattle.std.specs.Prelude.{◌≡◌, [], ◌∷◌, ◌<◌, ◌^◌, List, ℕ, MatchOption};
ghost use Rattle.std.proofs.Math.Option.{none, some};
ghost use Rattle.rules.specs.File.{contract_from, date_from, window_from, instruction_from, default_from, reading_from, revision_from, table, widths_of, command_of};
ghost use Rattle.file_table.specs.Operands.{Sized};

use calendar::Date;
use commands::contract::Contract;
use commands::entries::{Command, Default, Instruction, Reading, Revision, Window};
use energy::units::{Kw, Minutes};
use file_table::table::{
    CLOSE_BYTE, CONTRACT_BYTE, DATE_BYTE, DEFAULT_BYTE, INSTRUCTION_BYTE, READING_BYTE,
    REVISION_BYTE, WINDOW_BYTE,
};

// Each entry from its operands, in the table's order. No trait: nothing here is generic over entries, so one would only name these functions anew.
fn contract_of(v: [u64; 11]) -> Contract
    requires { Sized (1 ∷ 1 ∷ 1 ∷ 4 ∷ 4 ∷ 4 ∷ 2 ∷ 2 ∷ 4 ∷ 4 ∷ 4 ∷ []) v }
    ensures { result ≡ contract_from v }
{
    Contract {
        days: v[0] as u8,
        kind: v[1] as u8,
        service: v[2] as u8,
        contracted: Kw(v[3] as i64),
        rampup: v[4] as u32,
        rampdown: v[5] as u32,
        response: Minutes(v[6] as u16),
        recovery: Minutes(v[7] as u16),
        availability: v[8] as u32,
        utilisation: v[9] as u32,
        optional: v[10] as u32,
    }
}

fn date_of(v: [u64; 11]) -> Date
    requires { Sized (2 ∷ 1 ∷ 1 ∷ []) v }
    ensures { result ≡ date_from v }
{
    Date {
        year: v[0] as u16,
        month: v[1] as u8,
        day: v[2] as u8,
    }
}

fn window_of(v: [u64; 11]) -> Window
    requires { Sized (2 ∷ 2 ∷ 1 ∷ []) v }
    ensures { result ≡ window_from v }
{
    Window {
        start: Minutes(v[0] as u16),
        end: Minutes(v[1] as u16),
        verdict: v[2] as u8,
    }
}

fn instruction_of(v: [u64; 11]) -> Instruction
    requires { Sized (2 ∷ 2 ∷ []) v }
    ensures { result ≡ instruction_from v }
{
    Instruction {
        issue: Minutes(v[0] as u16),
        cease: Minutes(v[1] as u16),
    }
}

fn default_of(v: [u64; 11]) -> Default
    requires { Sized (2 ∷ 1 ∷ 1 ∷ []) v }
    ensures { result ≡ default_from v }
{
    Default {
        minute: Minutes(v[0] as u16),
        kind: v[1] as u8,
        reach: v[2] as u8,
    }
}

// A reading from its minute and its kW, which four bytes say in two's complement: a revision has its number between them.
#[tactic(auto, unfolding(rules::specs::File::signed_of))]
fn reading_of(minute: u64, kw: u64) -> Reading
    requires { (minute < 2 ^ 16) × (kw < 2 ^ 32) }
    ensures { result ≡ reading_from (minute ∷ kw ∷ []) }
{
    Reading {
        minute: Minutes(minute as u16),
        kw: Kw((kw as u32).cast_signed().into()),
    }
}

fn revision_of(v: [u64; 11]) -> Revision
    requires { Sized (2 ∷ 1 ∷ 4 ∷ []) v }
    ensures { result ≡ revision_from v }
{
    Revision {
        number: v[1] as u8,
        reading: reading_of(v[0], v[2]),
    }
}

// The command of a byte, if the table has it.
#[tactic(auto, unfolding(rules::specs::File::command_of, rules::specs::File::table, rules::specs::File::widths_of))]
pub fn command_of(byte: u8, v: [u64; 11]) -> Option<Command>
    requires { (widths : List ℕ) → widths_of byte table ≡ some widths → Sized widths v }
    ensures { MatchOption result (command_of byte v ≡ none) (λ command. command_of byte v ≡ some command) }
{
    match byte {
        CONTRACT_BYTE => Some(Command::Contract(contract_of(v))),
        DATE_BYTE => Some(Command::Date(date_of(v))),
        WINDOW_BYTE => Some(Command::Window(window_of(v))),
        INSTRUCTION_BYTE => Some(Command::Instruction(instruction_of(v))),
        DEFAULT_BYTE => Some(Command::Default(default_of(v))),
        READING_BYTE => Some(Command::Reading(reading_of(v[0], v[1]))),
        REVISION_BYTE => Some(Command::Revision(revision_of(v))),
        CLOSE_BYTE => Some(Command::Close),
        0x00..=0xFF => None,
    }
}
