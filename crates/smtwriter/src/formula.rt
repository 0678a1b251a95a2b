// The text of the marked nodes of a list, line by line.
ghost use Rattle.std.specs.Prelude.{◌≡◌, ◌+◌, ◌*◌, ◌≤◌, List, ℕ, map, get_or, length};
ghost use Rattle.smttext.specs.Fill.{filled};
ghost use Rattle.smttext.specs.Terms.{float_text, term_text};
ghost use Rattle.smttext.specs.Names.{name_of};
ghost use Rattle.smttext.specs.Text.{in_part, line_in, part, term_at};
ghost use Rattle.smtwriter.specs.Inside.{hole_text, parts_of};

use smttext::Part;
use words::Wide;
use writing::{Sink, Text};

// A list of nodes, and the sorts and marks of those up to a root.
#[derive(Clone, Copy)]
pub(crate) struct Formula<'a> {
    pub(crate) nodes: &'a [u64],
    pub(crate) sorts: &'a [u16],
    pub(crate) marks: &'a [u8],
}

// What stands in the place of a template's `%`.
#[derive(Clone, Copy)]
enum Hole {
    // A node's name.
    Name(u64),
    Sort(u64),
    Format(u64),
    Rounding(u64),
    Decimal(u64),
}

use Hole::{Decimal, Format, Name, Rounding, Sort};

impl<'a> Text for Formula<'a> {
    ghost text = { λ f. parts_of f.nodes.now f.sorts.now f.marks.now };

    fn write<S: Sink>(&self, out: &mut S) {
        self.part(out, Part::Declarations);
        self.part(out, Part::Definitions);
        self.part(out, Part::Assertions);
    }
}

// Whether a node of a kind has a line in a part.
fn has_line(p: Part, kind: u64) -> bool
    ensures { result ≡ in_part p kind }
{
    match p {
        Part::Declarations => smttext::is_declared(kind),
        Part::Definitions => !smttext::is_declared(kind),
        Part::Assertions => kind == 26,
    }
}

impl<'a> Formula<'a> {
    // One part of the text.
    fn part<S: Sink>(&self, out: &mut S, p: Part)
        ensures { S.took (part p self.now.nodes.now self.now.sorts.now self.now.marks.now (length self.now.marks.now)) out.old out.new }
    {
        for (i, mark) in self.marks.iter().enumerate() {
            if *mark == 1 && has_line(p, self.field(i as u64, 0)) {
                self.line(out, p, i as u64);
            }
        }
    }

    // The line of node i in a part.
    fn line<S: Sink>(&self, out: &mut S, p: Part, i: u64)
        ensures { S.took (line_in p self.now.nodes.now self.now.sorts.now i) out.old out.new }
    {
        match p {
            Part::Declarations => {
                self.fill(
                    out,
                    b"(declare-fun % () %)\n",
                    &[Name(i), Sort(self.sort(i))],
                );
            }
            Part::Definitions => {
                self.fill(out, b"(define-fun % () % ", &[Name(i), Sort(self.sort(i))]);
                self.term(out, i);
                out.all(b")\n");
            }
            Part::Assertions => {
                let a = self.field(i, 1);
                let holes = [Format(self.sort(a)), Name(i), Name(a)];
                self.fill(out, b"(assert (= ((_ to_fp %) %) %))\n", &holes);
            }
        }
    }

    // The term of node i.
    fn term<S: Sink>(&self, out: &mut S, i: u64)
        ensures { S.took (term_at self.now.nodes.now i) out.old out.new }
    {
        let kind = self.field(i, 0);
        let (a, b, c) = (self.field(i, 1), self.field(i, 2), self.field(i, 3));
        self.term_of(out, kind, a, b, c);
    }

    // The term of a kind with the fields a, b, c. A kind is a number, as in sorts: any word of a lent list is taken.
    fn term_of<S: Sink>(&self, out: &mut S, kind: u64, a: u64, b: u64, c: u64)
        ensures { S.took (term_text kind a b c (name_of self.now.nodes.now a) (name_of self.now.nodes.now b) (name_of self.now.nodes.now c)) out.old out.new }
    {
        let (x, y, z) = (Name(a), Name(b), Name(c));
        match kind {
            6 => {
                out.all(b"#b");
                out.binary(Wide { lo: a, hi: b }, c as usize);
            }
            7 => self.fill(out, b"(bvand % %)", &[x, y]),
            8 => self.fill(out, b"(bvxor % %)", &[x, y]),
            9 => self.fill(out, b"(ite (= % %) #b1 #b0)", &[x, y]),
            10 => self.fill(out, b"(ite (and (= #b1 %) (= #b1 %)) #b1 #b0)", &[x, y]),
            11 => self.fill(out, b"(ite (or (= #b1 %) (= #b1 %)) #b1 #b0)", &[x, y]),
            12 => self.fill(out, b"(ite (not (= #b1 %)) #b1 #b0)", &[x]),
            13 => self.fill(out, b"(ite (= #b1 %) % %)", &[x, y, z]),
            14 => self.fill(out, b"((_ extract % %) %)", &[Decimal(b), Decimal(c), x]),
            15 => self.fill(out, b"(concat % %)", &[x, y]),
            _ => self.float_term(out, kind, a, b, c),
        }
    }

    // The term of an operation on floats.
    fn float_term<S: Sink>(&self, out: &mut S, kind: u64, a: u64, b: u64, c: u64)
        ensures { S.took (float_text kind b c (name_of self.now.nodes.now a) (name_of self.now.nodes.now b)) out.old out.new }
    {
        let (x, y) = (Name(a), Name(b));
        match kind {
            16 => self.fill(out, b"(fp.add % % %)", &[Rounding(c), x, y]),
            17 => self.fill(out, b"(fp.sub % % %)", &[Rounding(c), x, y]),
            18 => self.fill(out, b"(fp.mul % % %)", &[Rounding(c), x, y]),
            19 => self.fill(out, b"(fp.div % % %)", &[Rounding(c), x, y]),
            20 => self.fill(out, b"(ite (fp.eq % %) #b1 #b0)", &[x, y]),
            21 => self.fill(out, b"(ite (fp.lt % %) #b1 #b0)", &[x, y]),
            22 => self.fill(out, b"(ite (fp.isNaN %) #b1 #b0)", &[x]),
            23 => self.fill(out, b"(fp.sqrt % %)", &[Rounding(b), x]),
            24 => self.fill(out, b"(fp.roundToIntegral % %)", &[Rounding(b), x]),
            25 => self.fill(out, b"((_ to_fp %) %)", &[Format(c), x]),
            27 => self.fill(out, b"((_ fp.to_sbv %) % %)", &[Decimal(c), Rounding(b), x]),
            _ => self.fill(out, b"((_ to_fp %) % %)", &[Format(c), Rounding(b), x]),
        }
    }

    // A template, in which each `%` stands for the next hole.
    fn fill<S: Sink>(&self, out: &mut S, template: &[u8], holes: &[Hole])
        ensures { S.took (filled template.now (map (hole_text self.now.nodes.now) holes.now)) out.old out.new }
    {
        let mut written = 0;
        let mut rest = holes;
        for (i, b) in template.iter().enumerate() {
            if *b == b'%' && !rest.is_empty() {
                out.all(&template[written..i]);
                self.hole(out, rest[0]);
                written = i + 1;
                rest = &rest[1..];
            }
        }
        out.all(&template[written..]);
    }

    fn hole<S: Sink>(&self, out: &mut S, hole: Hole)
        ensures { S.took (hole_text self.now.nodes.now hole) out.old out.new }
    {
        match hole {
            Name(i) => smttext::name(out, i, self.field(i, 0), self.field(i, 1)),
            Sort(s) => smttext::sort(out, s),
            Format(f) => smttext::format(out, f),
            Rounding(r) => out.all(if r == 0 { b"RNE" } else { b"RTZ" }),
            Decimal(v) => out.decimal(v),
        }
    }

    // Word j of node i, 0 past the list's end.
    fn field(&self, i: u64, j: usize) -> u64
        requires { j ≤ 3 }
        ensures { result ≡ get_or self.now.nodes.now (4 * i + j) 0 }
    {
        // No list has 2^62 words, so the place of a node that is below the length does not overflow.
        if i >= self.nodes.len() as u64 {
            return 0;
        }
        self.nodes.get(4 * i as usize + j).copied().unwrap_or(0)
    }

    // The sort of node i, 0 past the table's end.
    fn sort(&self, i: u64) -> u64
        ensures { result ≡ get_or self.now.sorts.now i 0 }
    {
        self.sorts.get(i as usize).copied().unwrap_or(0) as u64
    }
}
