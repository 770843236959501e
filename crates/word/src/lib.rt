// Integers out of bytes, lowest byte first, and the two fields of a word.
#![tactic(auto)]

ghost use Rattle.std.specs.Prelude.{◌≡◌, ◌+◌, ◌*◌, ◌^◌, ◌≤◌, ◌<◌, length};
ghost use Rattle.json_model.specs.Bytes.{number, low_field, high_field};

// One byte more: the number that k bytes make, and the next byte above it.
#[tactic(auto, using(crate::proofs::Laws::byte_laws))]
fn more(value: u64, x: u8, k: usize) -> u64
    requires { (k < 8) × (value < 256 ^ k) }
    ensures { result ≡ value + x * 256 ^ k }
{
    value + (u64::from(x) << (8 * k))
}

// The number that the n bytes at a place make, byte by byte: not by `from_le_bytes`, which takes arrays of two, four or
// eight bytes. This is for all other widths.
#[tactic(auto, using(crate::proofs::Laws::integer_laws))]
fn any(s: &[u8], at: usize, n: usize) -> u64
    requires { (n ≤ 8) × (at + n ≤ length s.now) }
    ensures { result ≡ number s.now at n }
{
    let mut value = 0;
    for (k, x) in s[at..at + n].iter().enumerate() {
        value = more(value, *x, k);
    }
    value
}

// The number that the n bytes at a place make, for every n up to eight: of one, two, four and eight it is one load.
#[tactic(auto, using(crate::proofs::Laws::width_laws))]
pub fn integer(s: &[u8], at: usize, n: usize) -> u64
    requires { (n ≤ 8) × (at + n ≤ length s.now) }
    ensures { result ≡ number s.now at n }
{
    match n {
        1 => u64::from(s[at]),
        2 => u64::from(u16::from_le_bytes([s[at], s[at + 1]])),
        4 => u64::from(word_at(s, at)),
        8 => eight(&s[at..]),
        _ => any(s, at, n),
    }
}

// The number that the first eight bytes make: a reader is handed the part of the document that begins at the number.
// This and `word_at` are no `integer`: their widths are known, and `split` takes a u32.
#[tactic(auto, using(crate::proofs::Laws::width_laws))]
pub fn eight(s: &[u8]) -> u64
    requires { 8 ≤ length s.now }
    ensures { result ≡ number s.now 0 8 }
{
    u64::from_le_bytes([s[0], s[1], s[2], s[3], s[4], s[5], s[6], s[7]])
}

// The word at a place: four bytes.
#[tactic(auto, using(crate::proofs::Laws::width_laws))]
pub fn word_at(s: &[u8], at: usize) -> u32
    requires { at + 4 ≤ length s.now }
    ensures { result ≡ number s.now at 4 }
{
    u32::from_le_bytes([s[at], s[at + 1], s[at + 2], s[at + 3]])
}

// A word's two fields, as numbers to count with.
#[derive(Clone, Copy)]
pub struct Fields {
    pub low: usize,
    pub high: usize,
}

// The field in the lowest k bits of a word, by mask, and the field above it, by shift.
#[tactic(auto, using(crate::proofs::Laws::masked))]
pub fn split(w: u32, k: u32) -> Fields
    requires { k < 32 }
    ensures { (result.low ≡ low_field k w) × (result.high ≡ high_field k w) }
{
    let mask = (1u32 << k) - 1;
    Fields {
        low: (w & mask) as usize,
        high: (w >> k) as usize,
    }
}
