// What the questions put to a Fractured JSON document answer; each may be refused instead. specs/Told.antt gives each
// case its number and values.
#![tactic(auto)]

// What a value is, with the length of a string or container.
#[derive(Debug, Clone, Copy, PartialEq, Eq)]
pub enum Kind {
    Null,
    False,
    True,
    Number,
    String(usize),
    Object(usize),
    Array(usize),
}

// A number: its type byte (a number, as docs/format asks for it and the C interface hands it on) and 64 bits, signed
// and tiny ints extended by sign, all others by zeros.
#[derive(Debug, Clone, Copy, PartialEq, Eq)]
pub struct Number {
    pub type_byte: u8,
    pub bits: u64,
}

// A member: where its key byte and its value stand.
#[derive(Debug, Clone, Copy, PartialEq, Eq)]
pub struct Member {
    pub key: usize,
    pub value: usize,
}

// A key: where its text stands in the document or in the key list, how long it is, and where the key ends, which is
// where its value starts.
#[derive(Debug, Clone, Copy, PartialEq, Eq)]
pub enum Key {
    Document {
        place: usize,
        len: usize,
        past: usize,
    },
    List {
        place: usize,
        len: usize,
        past: usize,
    },
}
