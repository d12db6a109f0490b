// The reader: a unit file's bytes and a position in them.
ghost use Rattle.std.specs.Prelude.{◌≡◌};
ghost use Rattle.rules.specs.File.{read_at};
ghost use Rattle.file_read.specs.Reader.{position_after, step_at};

use crate::decode::read_at;
use rules::file::Read;

#[derive(Clone, Copy)]
pub struct Reader<'a> {
    pub src: &'a [u8],
    pub at: usize,
}

impl<'a> Reader<'a> {
    // A reader of these bytes at a position.
    pub fn new(src: &'a [u8], at: usize) -> Reader<'a>
        ensures { (result.src ≡ src.entry) × (result.at ≡ at) }
    {
        Reader { src, at }
    }

    // What stands at the reader's position. Past a command the reader moves on; at the end, and after a refusal, it stays.
    pub fn read(&mut self) -> Read
        ensures found { result ≡ read_at self.old.src.now self.old.at }
        ensures same { self.new.src ≡ self.old.src }
        ensures moved { self.new.at ≡ position_after result self.old.at }
    {
        let read = read_at(self.src, self.at);
        if let Ok(Some((_, next))) = read {
            self.at = next;
        }
        read
    }
}

// What stands at a position, and the position after it. No `Result`: the position is the reader's, which stands somewhere under either answer.
#[derive(Clone, Copy)]
pub struct Step {
    pub read: Read,
    pub at: usize,
}

// A reader's step from a position of plain bytes on: its callers hold no reader.
#[tactic(auto, unfolding(crate::specs::Reader::step_at))]
pub fn read_from(src: &[u8], at: usize) -> Step
    ensures { result ≡ step_at src.now at }
{
    let mut reader = Reader::new(src, at);
    let read = reader.read();
    Step {
        read,
        at: reader.at,
    }
}
