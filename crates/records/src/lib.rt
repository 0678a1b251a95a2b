// The reader of one record from lent bytes: marks, numbers, texts and operands, one behind the other.
#![tactic(auto)]

ghost use Rattle.std.specs.Prelude.{◌≡◌, ◌<◌, ◌≤◌, ℕ, Bool, length};
ghost use Rattle.records.specs.Reading.{reading, tested_at};
ghost use Rattle.records.specs.Format.{text_at, memory_at, operand_at, present_at, record_at, end_at, taken_at};
ghost use Rattle.records.specs.Numbers.{refusal_of};
ghost use Rattle.records.specs.Inside.Steps.{Reads, chunk_at};

use forms::{Instruction, Operand};
use texts::Text;

// Why bytes are no record: a text, an operand or a mark that is none, or an end that comes early. Its number goes outside.
#[derive(Clone, Copy, Debug, PartialEq, Eq)]
pub enum Refusal {
    BadText = 3,
    BadOperand = 4,
    BadMark = 11,
    Short = 12,
}

impl Refusal {
    pub fn number(self) -> u32
        ensures { result ≡ refusal_of self }
    {
        self as u32
    }
}

// What an operand does not carry is 0: so is all of one that is not there.
const ABSENT: Operand = Operand {
    kind: 0,
    text: Text {
        bytes: [0; 32],
        len: 0,
    },
    width: 0,
    known: 0,
    address: 0,
    slot: 0,
};

// A place in lent bytes. Each reading moves it behind what was read, or to the offending byte: where the bytes end early, to their end.
#[derive(Clone, Copy)]
struct Cursor<'a> {
    input: &'a [u8],
    at: usize,
}

impl<'a> Cursor<'a> {
    // The input ends inside a record.
    fn short(&mut self) -> Refusal
        ensures { (result ≡ Refusal.Short) × (self.new.at ≡ length self.old.input.now) × (self.new.input ≡ self.old.input) }
    {
        self.at = self.input.len();
        Refusal::Short
    }

    // One byte that passes a test.
    fn byte<F: Fn(u8) -> bool>(&mut self, passes: F, refusal: Refusal) -> Result<u8, Refusal>
        requires { F.IsAlwaysCallable passes }
        ensures { (test : ℕ → Bool) → ((b : ℕ) (r : Bool) → b < 256 → F.post passes b r → r ≡ test b) → Reads (tested_at test refusal) self.old self.new result }
    {
        if self.at >= self.input.len() {
            return Err(self.short());
        }
        let b = self.input[self.at];
        if !passes(b) {
            return Err(refusal);
        }
        self.at += 1;
        Ok(b)
    }

    // So many bytes.
    fn bytes<const N: usize>(&mut self) -> Result<[u8; N], Refusal>
        requires { 0 < N }
        ensures { Reads (chunk_at N) self.old self.new result }
    {
        let rest = &self.input[self.at.min(self.input.len())..];
        let Some(chunk) = rest.first_chunk::<N>() else {
            return Err(self.short());
        };
        self.at += N;
        Ok(*chunk)
    }

    // A length of at most 32, then as many bytes of at most 127.
    fn text(&mut self) -> Result<Text, Refusal>
        ensures { Reads text_at self.old self.new result }
    {
        let len = self.byte(|b| b <= 32, Refusal::BadText)? as usize;
        let mut bytes = [0; 32];
        for i in 0..len {
            bytes[i] = self.byte(|b| b <= 127, Refusal::BadText)?;
        }
        Ok(Text { bytes, len })
    }

    // Width, known or not, address number and slot number.
    fn memory(&mut self) -> Result<Operand, Refusal>
        ensures { Reads memory_at self.old self.new result }
    {
        Ok(Operand {
            kind: 1,
            width: u16::from_le_bytes(self.bytes()?),
            known: self.byte(|b| b <= 1, Refusal::BadOperand)?,
            address: u32::from_le_bytes(self.bytes()?),
            slot: u32::from_le_bytes(self.bytes()?),
            ..ABSENT
        })
    }

    // An operand of a kind of at most 2: a register's text, memory or any other.
    fn operand(&mut self) -> Result<Operand, Refusal>
        ensures { Reads operand_at self.old self.new result }
    {
        match self.byte(|b| b <= 2, Refusal::BadOperand)? {
            0 => Ok(Operand {
                text: self.text()?,
                ..ABSENT
            }),
            1 => self.memory(),
            kind => Ok(Operand { kind, ..ABSENT }),
        }
    }

    // An operand where one is there.
    fn present(&mut self, there: bool) -> Result<Operand, Refusal>
        ensures { Reads (present_at there) self.old self.new result }
    {
        if there { self.operand() } else { Ok(ABSENT) }
    }

    // What follows a record's mark: address, mnemonic, count and operands.
    fn record(&mut self) -> Result<Option<Instruction>, Refusal>
        ensures { Reads record_at self.old self.new result }
    {
        let address = u64::from_le_bytes(self.bytes()?);
        let mnemonic = self.text()?;
        let count = self.byte(|b| b <= 3, Refusal::BadOperand)? as usize;
        let operands = [
            self.present(0 < count)?,
            self.present(1 < count)?,
            self.present(2 < count)?,
        ];
        Ok(Some(Instruction {
            operands,
            count,
            mnemonic,
            address,
        }))
    }

    // What follows the end mark: nothing.
    fn end(&self) -> Result<Option<Instruction>, Refusal>
        ensures { Reads end_at self.now self.now result }
    {
        if self.at == self.input.len() {
            Ok(None)
        } else {
            Err(Refusal::BadMark)
        }
    }

    // A mark, and what follows it.
    fn item(&mut self) -> Result<Option<Instruction>, Refusal>
        ensures { Reads taken_at self.old self.new result }
    {
        self.byte(|b| b == 0x87, Refusal::BadMark)?;
        match self.byte(|b| b == 0x49 || b == 0x45, Refusal::BadMark)? {
            0x49 => self.record(),
            _ => self.end(),
        }
    }
}

// The record at a place, or that the end mark stands there: the place moves on behind it. Or the first offence in reading order, at which the place is left.
pub fn read_record(input: &[u8], at: &mut usize) -> Result<Option<Instruction>, Refusal>
    ensures { reading result at.new ≡ taken_at input.now at.old }
{
    let mut cursor = Cursor { input, at: *at };
    let read = cursor.item();
    *at = cursor.at;
    read
}
