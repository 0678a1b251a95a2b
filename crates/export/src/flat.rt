// The flat layout of an instruction: 177 bytes, numbers low byte first.
ghost use Rattle.std.specs.Prelude.{◌≡◌, ◌+◌, ◌≤◌, length, take, drop};
ghost use Rattle.export.specs.Flat.{text_in, operand_in, insn_of, laid, text_flat, memory_flat, operand_flat, flat_of};

use forms::{Instruction, Operand};
use texts::Text;

// So many bytes at a place. All of them are there, so no place is tested.
fn bytes<const N: usize>(s: &[u8], at: usize) -> [u8; N]
    requires { at + N ≤ length s.now }
    ensures { result ≡ take N (drop at s.now) }
{
    *s[at..].first_chunk().unwrap()
}

// A length and 32 bytes.
fn text(s: &[u8], at: usize) -> Text
    requires { at + 33 ≤ length s.now }
    ensures { result ≡ text_in s.now at }
{
    Text {
        bytes: bytes(s, at + 1),
        len: s[at] as usize,
    }
}

fn operand(s: &[u8], at: usize) -> Operand
    requires { at + 45 ≤ length s.now }
    ensures { result ≡ operand_in s.now at }
{
    Operand {
        kind: s[at],
        text: text(s, at + 1),
        width: u16::from_le_bytes(bytes(s, at + 34)),
        known: s[at + 36],
        address: u32::from_le_bytes(bytes(s, at + 37)),
        slot: u32::from_le_bytes(bytes(s, at + 41)),
    }
}

// The instruction that stands in 177 bytes.
pub(crate) fn read(s: &[u8; 177]) -> Instruction
    ensures { result ≡ insn_of s.now }
{
    Instruction {
        operands: [operand(s, 42), operand(s, 87), operand(s, 132)],
        count: s[41] as usize,
        mnemonic: text(s, 8),
        address: u64::from_le_bytes(bytes(s, 0)),
    }
}

// Writes bytes at a place.
fn put<const N: usize>(d: &mut [u8], at: usize, bytes: [u8; N])
    requires { at + N ≤ length d.old }
    ensures { (d.new ≡ laid d.old at bytes.entry) × (length bytes.entry ≡ N) }
{
    d[at..at + N].copy_from_slice(&bytes);
}

fn put_text(d: &mut [u8], at: usize, t: Text)
    requires { at + 33 ≤ length d.old }
    ensures { (d.new ≡ laid d.old at (text_flat t)) × (length (text_flat t) ≡ 33) }
{
    d[at] = (t.len % 256) as u8;
    put(d, at + 1, t.bytes);
}

// A memory operand's fields: 11 bytes.
fn put_memory(d: &mut [u8], at: usize, o: Operand)
    requires { at + 11 ≤ length d.old }
    ensures { d.new ≡ laid d.old at (memory_flat o) }
{
    put(d, at, o.width.to_le_bytes());
    d[at + 2] = o.known;
    put(d, at + 3, o.address.to_le_bytes());
    put(d, at + 7, o.slot.to_le_bytes());
}

fn put_operand(d: &mut [u8], at: usize, o: Operand)
    requires { at + 45 ≤ length d.old }
    ensures { (d.new ≡ laid d.old at (operand_flat o)) × (length (operand_flat o) ≡ 45) }
{
    d[at] = o.kind;
    put_text(d, at + 1, o.text);
    put_memory(d, at + 34, o);
}

// Writes an instruction into 177 bytes.
pub(crate) fn write(d: &mut [u8; 177], i: Instruction)
    ensures { (d.new ≡ laid d.old 0 (flat_of i)) × (length (flat_of i) ≡ 177) }
{
    let [first, second, third] = i.operands;
    put(d, 0, i.address.to_le_bytes());
    put_text(d, 8, i.mnemonic);
    d[41] = (i.count % 256) as u8;
    put_operand(d, 42, first);
    put_operand(d, 87, second);
    put_operand(d, 132, third);
}
