// Why a command or a call is turned down.
ghost use Rattle.std.specs.Prelude.{◌≡◌, cond, Ok, Err};
ghost use Rattle.commands.specs.Refusals.{number_of};

use std::error::Error;
use std::fmt;

// The refusals, each with the number under which it is known.
#[derive(Clone, Copy, Debug, PartialEq, Eq)]
pub enum Refusal {
    // reading: a byte that no command has, and a command cut off
    UnknownCommand = 1,
    CutOff = 2,
    // the operands
    OutOfRange = 3,
    RampTooLong = 4,
    BadWindow = 5,
    // the book
    NotReached = 11,
    Closed = 12,
    NoContract = 13,
    SecondContract = 14,
    ShortMemory = 15,
    // beside what is entered
    BeyondSpan = 16,
    RejectedWindow = 17,
    OverlappingWindow = 18,
    CeasedEarly = 19,
    IssuedEarly = 20,
    OutsideWindows = 21,
    SecondReading = 22,
    FullTable = 23,
    // settling, and writing
    NotClosed = 24,
    MissingReading = 25,
    NoRoom = 26,
    // revisions and dates
    RevisionHeld = 27,
    NoSuchDate = 28,
    LateDate = 29,
    OtherMonth = 30,
}

impl Refusal {
    // A method and no `From`: `u8::from(refusal)` would not say that it is this number.
    pub fn number(self) -> u8
        ensures { result ≡ number_of self }
    {
        self as u8
    }
}

impl fmt::Display for Refusal {
    fn fmt<W: fmt::Write>(&self, f: &mut fmt::Formatter<W>) -> fmt::Result {
        write!(f, "refused {}", self.number())
    }
}

impl Error for Refusal {}

// Turned down under this refusal where its condition holds.
pub fn refuse_if(holds: bool, refusal: Refusal) -> Result<(), Refusal>
    ensures { result ≡ cond holds (Err refusal) (Ok tt) }
{
    if holds { Err(refusal) } else { Ok(()) }
}
