// The book that a host's tables of numbers say.
#![tactic(auto)]

ghost use Rattle.std.specs.Prelude.{◌≡◌, List, ℕ, ◌+◌, ◌*◌, ◌<◌, ◌^◌};
ghost use Rattle.host_tables.specs.Tables.{Tables as TablesOf, book_of, entire, entries_of, entry_at, said, tables};
ghost use Rattle.host_tables.specs.Tables.{byte_at, contract_of_row, date_of_row, number_at, word_at};
ghost use Rattle.host_tables.specs.Tables.{default_numbers, default_of_row, instruction_numbers, instruction_of_row, window_numbers, window_of_row};

use book::Book;
use calendar::Date;
use commands::contract::Contract;
use commands::entries::{Default, Instruction, Window};
use commands::refusal::{Refusal, refuse_if};
use energy::units::{Kw, Minutes};
use std::marker::Model;

// How many numbers a row of each table has.
const CONTRACT_NUMBERS: usize = 14;

const WINDOW_NUMBERS: usize = 3;

const INSTRUCTION_NUMBERS: usize = 2;

const DEFAULT_NUMBERS: usize = 3;

// The number at a place of a row, 0 past the table's end.
fn number_at(r: &[u32], i: usize) -> u32
    ensures { result ≡ number_at r.now i }
{
    r.get(i).copied().unwrap_or(0)
}

// The number at a place, in a field of one byte; so for two bytes below. One function for both would take its type's `MAX` from each caller.
fn byte_at(r: &[u32], i: usize) -> u8
    ensures { result ≡ byte_at r.now i }
{
    u8::try_from(number_at(r, i)).unwrap_or(u8::MAX)
}

// The number at a place, in a field of two bytes.
fn word_at(r: &[u32], i: usize) -> u16
    ensures { result ≡ word_at r.now i }
{
    u16::try_from(number_at(r, i)).unwrap_or(u16::MAX)
}

// The contract of a row.
#[tactic(auto, unfolding(crate::specs::Tables::contract_of_row))]
fn contract_in(r: &[u32]) -> Contract
    ensures { result ≡ contract_of_row r.now }
{
    Contract {
        days: byte_at(r, 0),
        kind: byte_at(r, 1),
        service: byte_at(r, 2),
        contracted: Kw(i64::from(number_at(r, 3))),
        rampup: number_at(r, 4),
        rampdown: number_at(r, 5),
        response: Minutes(word_at(r, 6)),
        recovery: Minutes(word_at(r, 7)),
        availability: number_at(r, 8),
        utilisation: number_at(r, 9),
        optional: number_at(r, 10),
    }
}

// The date of a contract's row: its last three numbers, zeros for none.
#[tactic(auto, unfolding(crate::specs::Tables::date_of_row))]
fn date_in(r: &[u32]) -> Date
    ensures { result ≡ date_of_row r.now }
{
    Date {
        year: word_at(r, 11),
        month: byte_at(r, 12),
        day: byte_at(r, 13),
    }
}

// An entry that a row of so many numbers says.
trait FromRow {
    ghost NUMBERS: { ℕ };

    // the definition of the entry
    ghost of_row: { List ℕ → Self };

    const NUMBERS: usize;

    fn from_row(r: &[u32]) -> Self
        ensures { result ≡ of_row r.now };
}

impl FromRow for Window {
    ghost NUMBERS = { window_numbers };

    ghost of_row = { window_of_row };

    const NUMBERS: usize = WINDOW_NUMBERS;

    #[tactic(auto, unfolding(crate::specs::Tables::window_of_row))]
    fn from_row(r: &[u32]) -> Window {
        Window {
            start: Minutes(word_at(r, 0)),
            end: Minutes(word_at(r, 1)),
            verdict: byte_at(r, 2),
        }
    }
}

impl FromRow for Instruction {
    ghost NUMBERS = { instruction_numbers };

    ghost of_row = { instruction_of_row };

    const NUMBERS: usize = INSTRUCTION_NUMBERS;

    #[tactic(auto, unfolding(crate::specs::Tables::instruction_of_row))]
    fn from_row(r: &[u32]) -> Instruction {
        Instruction {
            issue: Minutes(word_at(r, 0)),
            cease: Minutes(word_at(r, 1)),
        }
    }
}

impl FromRow for Default {
    ghost NUMBERS = { default_numbers };

    ghost of_row = { default_of_row };

    const NUMBERS: usize = DEFAULT_NUMBERS;

    #[tactic(auto, unfolding(crate::specs::Tables::default_of_row))]
    fn from_row(r: &[u32]) -> Default {
        Default {
            minute: Minutes(word_at(r, 0)),
            kind: byte_at(r, 1),
            reach: byte_at(r, 2),
        }
    }
}

// The entry of row i, from 0, of a table. Past the table's end stands the entry of zeros.
fn entry_at<T: FromRow>(table: &[u32], i: usize) -> T
    requires { T.NUMBERS * i < 2 ^ 64 }
    ensures { result ≡ entry_at T.of_row T.NUMBERS table.now i }
{
    T::from_row(table.get(T::NUMBERS * i..).unwrap_or(&[]))
}

// The entries of a table, in the book's places. The rows that it has are read, and the place after them: all places read, as `array::from_fn` would, takes
// a third more instructions of a call that settles tables of one contract.
fn entries<T: FromRow + Copy, const N: usize>(table: &[u32]) -> [T; N]
    requires { (0 < T.NUMBERS) × (T.NUMBERS * N < 2 ^ 64) }
    ensures { result ≡ entries_of T.of_row T.NUMBERS N table.now }
{
    let mut all = [T::from_row(&[]); N];
    let n = (table.len() / T::NUMBERS + 1).min(N);
    for i in 0..n {
        all[i] = entry_at(table, i);
    }
    all
}

// The tables of a host, row after row; the contract's has one row.
#[derive(Drop)]
pub struct Tables<'a> {
    pub contract: &'a [u32],
    pub windows: &'a [u32],
    pub instructions: &'a [u32],
    pub defaults: &'a [u32],
}

impl<'a> Model for Tables<'a> {
    ghost Value = { TablesOf };

    ghost view = { λ t. tables t.contract.now t.windows.now t.instructions.now t.defaults.now };
}

impl<'a> Tables<'a> {
    // These four.
    pub fn of(
        contract: &'a [u32],
        windows: &'a [u32],
        instructions: &'a [u32],
        defaults: &'a [u32],
    ) -> Tables<'a>
        ensures { result ≡ tables contract.now windows.now instructions.now defaults.now }
    {
        Tables {
            contract,
            windows,
            instructions,
            defaults,
        }
    }

    // Whether these hold whole rows alone.
    #[tactic(auto, unfolding(crate::specs::Tables::entire))]
    pub fn entire(&self) -> bool
        ensures { result ≡ entire self.now }
    {
        self.contract.len() == CONTRACT_NUMBERS
            && self.windows.len() % WINDOW_NUMBERS == 0
            && self.instructions.len() % INSTRUCTION_NUMBERS == 0
            && self.defaults.len() % DEFAULT_NUMBERS == 0
    }

    // The closed book of the rows that these hold, as many entries of each as there are whole ones.
    #[tactic(auto, unfolding(crate::specs::Tables::book_of))]
    pub fn book_of_rows(&self) -> Book
        ensures { result ≡ book_of self.now }
    {
        Book {
            agreed: true,
            closed: true,
            contract: contract_in(self.contract),
            date: date_in(self.contract),
            windows: entries(self.windows),
            nwindows: self.windows.len() / WINDOW_NUMBERS,
            instructions: entries(self.instructions),
            ninstructions: self.instructions.len() / INSTRUCTION_NUMBERS,
            defaults: entries(self.defaults),
            ndefaults: self.defaults.len() / DEFAULT_NUMBERS,
        }
    }

    // The same; refused where a row is cut short.
    pub fn book(&self) -> Result<Book, Refusal>
        ensures { result ≡ said self.now }
    {
        refuse_if(!self.entire(), Refusal::NotReached)?;
        Ok(self.book_of_rows())
    }
}
