// What a type byte and a key byte stand for, out of constant tables: the ranges of bytes in the order of document 000,
// and the widths of what stands after a byte. A byte in no range is reserved.
//
// The ranges are looked up at constant places, so that each test is one comparison with a number.
ghost use Rattle.std.specs.Prelude.{◌≡◌, ◌+◌, ◌≤◌, ◌<◌, Some};
ghost use Rattle.fractured_json_rules.specs.ByteTables.{form_of, key_form_of};
ghost use Rattle.fractured_json_values.specs.Heads.{Stands, has_length, head, head_of, key_head, key_head_of};

// A range of bytes: the first of them, and how many there are.
#[derive(Clone, Copy)]
struct Range {
    at: u8,
    len: u8,
}

impl Range {
    // The place in the range of a byte that is not before it; past its end none.
    #[inline(always)]
    fn place(self, b: u8) -> Option<usize>
        requires { self.at ≤ b }
        ensures { Stands b self.at self.len result }
    {
        let place = b - self.at;
        if place < self.len {
            return Some(place as usize);
        }
        None
    }
}

// The ranges of type bytes: null, false, true; numbers; strings, objects and arrays with a length after the byte; tiny
// strings, tiny objects, tiny arrays, tiny ints.
const TYPES: [Range; 11] = [
    Range { at: 0, len: 1 },
    Range { at: 1, len: 1 },
    Range { at: 2, len: 1 },
    Range { at: 3, len: 10 },
    Range { at: 13, len: 3 },
    Range { at: 16, len: 3 },
    Range { at: 19, len: 3 },
    Range { at: 22, len: 88 },
    Range { at: 110, len: 48 },
    Range { at: 158, len: 32 },
    Range { at: 190, len: 64 },
];

// So many type bytes come before the numbers: null, false and true.
pub(crate) const LITERALS: u8 = 3;

// The type byte of a binary64.
pub(crate) const BINARY64: u8 = 12;

// The payload widths of the numbers: int8 to uint64, each signed and unsigned, binary32 and binary64.
const NUMBER_WIDTHS: [u8; 10] = [1, 1, 2, 2, 4, 4, 8, 8, 4, 8];

// The widths of a length after its byte.
const LENGTH_WIDTHS: [u8; 3] = [1, 2, 4];

// The ranges of key bytes: immediate, back reference and global index with a v_uint16 after the byte; the same three
// with the number in the byte.
const KEYS: [Range; 6] = [
    Range { at: 0, len: 1 },
    Range { at: 1, len: 1 },
    Range { at: 2, len: 1 },
    Range { at: 3, len: 84 },
    Range { at: 87, len: 84 },
    Range { at: 171, len: 84 },
];

// The types of value by their type bytes, in an order that puts those with a length last.
#[derive(Clone, Copy, PartialEq, Eq)]
pub enum ValueType {
    Null,
    False,
    True,
    Signed,
    Unsigned,
    Tiny,
    Binary32,
    Binary64,
    String,
    Object,
    Array,
}

impl ValueType {
    // Whether a length belongs to a value of the type, in its type byte or after it: by the order, in one comparison.
    #[inline(always)]
    pub(crate) fn has_length(self) -> bool
        ensures { result ≡ has_length self }
    {
        ValueType::String as u8 <= self as u8
    }
}

// What the tables say of a type byte. `tiny` is the byte less the first byte of its range. Width 0 and `tiny` stay two
// numbers: an enum of them would be matched again in `sized`, `open_at` and `number_type`.
#[derive(Clone, Copy)]
pub struct Head {
    pub kind: ValueType,
    pub width: usize,
    pub tiny: usize,
}

// The i-th number.
#[tactic(auto, using(crate::proofs::Tables::number_laws))]
fn number_head(i: u8) -> Head
    requires { i < 10 }
    ensures { Some result ≡ head_of (form_of (i + 3)) }
{
    let width = NUMBER_WIDTHS[i as usize] as usize;
    let kind = match i {
        8 => ValueType::Binary32,
        9 => ValueType::Binary64,
        _ if i % 2 == 0 => ValueType::Signed,
        _ => ValueType::Unsigned,
    };
    Head {
        kind,
        width,
        tiny: 0,
    }
}

// The i-th of the types with a length after the byte: three widths each of strings, objects and arrays.
#[tactic(auto, using(crate::proofs::Tables::length_laws))]
fn length_head(i: u8) -> Head
    requires { i < 9 }
    ensures { Some result ≡ head_of (form_of (i + 13)) }
{
    let width = LENGTH_WIDTHS[(i % 3) as usize] as usize;
    let kind = match i / 3 {
        0 => ValueType::String,
        1 => ValueType::Object,
        _ => ValueType::Array,
    };
    Head {
        kind,
        width,
        tiny: 0,
    }
}

// A byte with a tiny length or int in it.
fn tiny(kind: ValueType, tiny: usize) -> Option<Head>
    ensures { result ≡ Some (head kind 0 tiny) }
{
    Some(Head {
        kind,
        width: 0,
        tiny,
    })
}

// A byte from the tiny strings on; of a reserved one none.
#[tactic(auto, using(crate::proofs::Tables::tiny_laws))]
fn tiny_head(b: u8) -> Option<Head>
    requires { 22 ≤ b }
    ensures { result ≡ head_of (form_of b) }
{
    if let Some(place) = TYPES[7].place(b) {
        return tiny(ValueType::String, place);
    }
    if let Some(place) = TYPES[8].place(b) {
        return tiny(ValueType::Object, place);
    }
    if let Some(place) = TYPES[9].place(b) {
        return tiny(ValueType::Array, place);
    }
    if let Some(place) = TYPES[10].place(b) {
        return tiny(ValueType::Tiny, place);
    }
    None
}

// None of a reserved byte.
#[tactic(auto, using(crate::proofs::Tables::type_laws))]
pub fn head_of(b: u8) -> Option<Head>
    ensures { result ≡ head_of (form_of b) }
{
    if b < TYPES[3].at {
        let kind = match b {
            0 => ValueType::Null,
            1 => ValueType::False,
            _ => ValueType::True,
        };
        return Some(Head {
            kind,
            width: 0,
            tiny: 0,
        });
    }
    let i = b - TYPES[3].at;
    if i < TYPES[3].len {
        return Some(number_head(i));
    }
    if b < TYPES[7].at {
        return Some(length_head(b - TYPES[4].at));
    }
    tiny_head(b)
}

// The kinds of key.
#[derive(Clone, Copy)]
pub enum KeyKind {
    Immediate,
    Back,
    Global,
}

// What the tables say of a key byte: its kind, and the number in it (the byte less the first byte of its range) unless
// a v_uint16 is spelled after it.
#[derive(Clone, Copy)]
pub struct KeyHead {
    pub kind: KeyKind,
    pub number: Option<usize>,
}

// A key byte that is not reserved.
fn key(kind: KeyKind, number: Option<usize>) -> Option<KeyHead>
    ensures { result ≡ Some (key_head kind number) }
{
    Some(KeyHead { kind, number })
}

// None for a reserved byte.
#[tactic(auto, using(crate::proofs::Tables::key_laws))]
pub fn key_head(b: u8) -> Option<KeyHead>
    ensures { result ≡ key_head_of (key_form_of b) }
{
    if b == KEYS[0].at {
        return key(KeyKind::Immediate, None);
    }
    if b == KEYS[1].at {
        return key(KeyKind::Back, None);
    }
    if b == KEYS[2].at {
        return key(KeyKind::Global, None);
    }
    if let Some(place) = KEYS[3].place(b) {
        return key(KeyKind::Immediate, Some(place));
    }
    if let Some(place) = KEYS[4].place(b) {
        return key(KeyKind::Back, Some(place));
    }
    if let Some(place) = KEYS[5].place(b) {
        return key(KeyKind::Global, Some(place));
    }
    None
}
