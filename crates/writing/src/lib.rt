// Text, byte by byte, into whatever takes bytes.
#![tactic(auto)]

ghost use Rattle.std.specs.Prelude.{List, [], ◌∷◌, ℕ};
ghost use Rattle.words.specs.Wide.{val};
ghost use Rattle.writing.specs.Bytes.{decimal, bits};
ghost use Rattle.writing.specs.Laws.{length_laws, writer_laws};
ghost use Rattle.writing.specs.Fits.{Fits};
ghost use Rattle.writing.specs.Put.{Counted, Wrote};
ghost use Rattle.writing.specs.Sink.{SinkLaws};

use words::Wide;

// What takes text, one byte after the other.
pub trait Sink {
    // It took this text between the first state and the second.
    ghost took: { List ℕ → Self → Self → Type 0 };

    fn put(&mut self, b: u8)
        ensures { took (b ∷ []) self.old self.new };

    // The bytes of a text.
    fn all(&mut self, text: &[u8])
        ensures { took text.now self.old self.new }
    {
        for b in text {
            self.put(*b);
        }
    }

    ghost laws: { SinkLaws took };

    // A number in decimal. A loop that fills an array from its end takes more code, and for the many numbers of one or two digits more instructions: 2,910 a node of a text, for 2,404.
    final fn decimal(&mut self, v: u64)
        ensures { took (decimal v) self.old self.new }
    {
        if v < 10 {
            self.put(b'0' + v as u8);
        } else {
            self.decimal(v / 10);
            self.put(b'0' + (v % 10) as u8);
        }
    }

    // The lowest n bits of a number, the highest first; those from bit 128 on are 0.
    final fn binary(&mut self, x: Wide, n: usize)
        ensures { took (bits n (val x)) self.old self.new }
    {
        for i in (0..n).rev() {
            let rest = x >> i as u64;
            self.put(b'0' + (rest.lo % 2) as u8);
        }
    }
}

// Lent bytes and the place of the next one; what has no room is left out, and counted.
#[derive(Drop)]
pub struct Writer<'a> {
    pub out: &'a mut [u8],
    pub at: usize,
}

impl<'a> Sink for Writer<'a> {
    ghost took = { Wrote };

    ghost laws = { writer_laws };

    // The largest place has none behind it.
    fn put(&mut self, b: u8) {
        if self.at < self.out.len() {
            self.out[self.at] = b;
        }
        self.at = self.at.saturating_add(1);
    }

    // As much as there is room for. By a loop: the parts of a text are short, and copy_from_slice would call memmove for each.
    fn all(&mut self, text: &[u8]) {
        let at = self.at.min(self.out.len());
        let n = text.len().min(self.out.len() - at);
        let room = &mut self.out[at..at + n];
        for (i, b) in text[..n].iter().enumerate() {
            room[i] = *b;
        }
        self.at = self.at.saturating_add(text.len());
    }
}

// How long a text is, up to the largest length.
#[derive(Clone, Copy)]
struct Length {
    bytes: usize,
}

impl Sink for Length {
    ghost took = { Counted };

    ghost laws = { length_laws };

    fn put(&mut self, _b: u8) {
        self.bytes = self.bytes.saturating_add(1);
    }

    fn all(&mut self, text: &[u8]) {
        self.bytes = self.bytes.saturating_add(text.len());
    }
}

// What can be written.
pub trait Text {
    ghost text: { Self → List ℕ };

    fn write<S: Sink>(&self, out: &mut S)
        ensures { S.took (text self.now) out.old out.new };
}

// Writes a text and gives its length, or writes nothing where it does not fit.
pub fn fitted<T: Text>(text: &T, out: &mut [u8]) -> Option<usize>
    ensures { Fits (T.text text.now) result out.old out.new }
{
    let mut length = Length { bytes: 0 };
    text.write(&mut length);
    if out.len() < length.bytes {
        return None;
    }
    text.write(&mut Writer { out, at: 0 });
    Some(length.bytes)
}
