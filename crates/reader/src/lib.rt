// The reader that remembers its place in the lent bytes.
#![tactic(auto)]

ghost use Rattle.std.specs.Prelude.{◌≡◌};
ghost use Rattle.records.specs.Reading.{reading};
ghost use Rattle.records.specs.Format.{taken_at};

use forms::Instruction;
use records::Refusal;

// The lent bytes, and the place of the next record.
#[derive(Clone, Copy)]
pub struct Reader<'a> {
    pub input: &'a [u8],
    pub at: usize,
}

impl<'a> Reader<'a> {
    // A reader at the first byte.
    pub fn new(input: &'a [u8]) -> Reader<'a>
        ensures { (result.input ≡ input.entry) × (result.at ≡ 0) }
    {
        Reader { input, at: 0 }
    }

    // The reader at another place of the same bytes.
    pub fn moved(self, at: usize) -> Reader<'a>
        ensures { (result.input ≡ self.entry.input) × (result.at ≡ at) }
    {
        Reader { at, ..self }
    }

    // The record at the reader's place, or that the end mark stands there; the reader moves on behind it, or to the offending place.
    pub fn take(&mut self) -> Result<Option<Instruction>, Refusal>
        ensures { (reading result self.new.at ≡ taken_at self.old.input.now self.old.at) × (self.new.input ≡ self.old.input) }
    {
        records::read_record(self.input, &mut self.at)
    }

    // What is taken at another place, to which the reader goes.
    pub fn record_at(&mut self, at: usize) -> Result<Option<Instruction>, Refusal>
        ensures { (reading result self.new.at ≡ taken_at self.old.input.now at) × (self.new.input ≡ self.old.input) }
    {
        *self = self.moved(at);
        self.take()
    }
}
