// The table of the unit file: command bytes, whole lengths and operand widths. Decoder and encoder read them here.
ghost use Rattle.std.specs.Prelude.{◌≡◌, ◌==◌, MatchOption};
ghost use Rattle.std.specs.List.{find};
ghost use Rattle.std.proofs.Math.Option.{none};
ghost use Rattle.rules.specs.File.{table, widths_of};
ghost use Rattle.file_table.specs.Table.{RowOf};

pub const CONTRACT_BYTE: u8 = 0x43;

pub const DATE_BYTE: u8 = 0x54;

pub const WINDOW_BYTE: u8 = 0x57;

pub const INSTRUCTION_BYTE: u8 = 0x49;

pub const DEFAULT_BYTE: u8 = 0x44;

pub const READING_BYTE: u8 = 0x4D;

pub const REVISION_BYTE: u8 = 0x52;

pub const CLOSE_BYTE: u8 = 0x5A;

// What the rows of a reading and of a revision say, for `file_readings`, which takes both by widths that the compiler knows: those of minute, number
// and kW, and their lengths.
pub const MINUTE_WIDTH: u8 = 2;

pub const NUMBER_WIDTH: u8 = 1;

pub const KW_WIDTH: u8 = 4;

pub const READING_LENGTH: u8 = 7;

pub const REVISION_LENGTH: u8 = 8;

// The year is the one number of a date that needs more than a byte.
const YEAR_WIDTH: u8 = 2;

// A command in the table.
#[derive(Clone, Copy)]
pub struct Row {
    pub byte: u8,
    // of the whole command, its byte included
    pub length: u8,
    // the operands' widths in bytes
    pub widths: &'static [u8],
}

const TABLE: [Row; 8] = [
    Row {
        byte: CONTRACT_BYTE,
        length: 32,
        widths: &[1, 1, 1, 4, 4, 4, 2, 2, 4, 4, 4],
    },
    Row {
        byte: DATE_BYTE,
        length: 5,
        widths: &[YEAR_WIDTH, 1, 1],
    },
    Row {
        byte: WINDOW_BYTE,
        length: 6,
        widths: &[2, 2, 1],
    },
    Row {
        byte: INSTRUCTION_BYTE,
        length: 5,
        widths: &[2, 2],
    },
    Row {
        byte: DEFAULT_BYTE,
        length: 5,
        widths: &[2, 1, 1],
    },
    Row {
        byte: READING_BYTE,
        length: READING_LENGTH,
        widths: &[MINUTE_WIDTH, KW_WIDTH],
    },
    Row {
        byte: REVISION_BYTE,
        length: REVISION_LENGTH,
        widths: &[MINUTE_WIDTH, NUMBER_WIDTH, KW_WIDTH],
    },
    Row {
        byte: CLOSE_BYTE,
        length: 1,
        widths: &[],
    },
];

// The row of a command byte among these.
fn row_in(rows: &[Row], byte: u8) -> Option<Row>
    ensures { result ≡ find (λ row. row.byte == byte) rows.now }
{
    rows.iter().copied().find(|row| row.byte == byte)
}

// The row of a command byte, if the table has one.
pub fn row_of(byte: u8) -> Option<Row>
    ensures { MatchOption result (widths_of byte table ≡ none) (λ row. RowOf byte row) }
{
    row_in(&TABLE, byte)
}
