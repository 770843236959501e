// The answers to the questions and lookups of BinaryJson; each may be refused instead. specs/Told.antt gives each case
// its number and values.
#![tactic(auto)]

use binary_json_areas::offsets::{SlotOffset, TreeOffset};

// A container's kind, with its size.
#[derive(Clone, Copy, Debug, PartialEq, Eq)]
pub enum Sized {
    Array(usize),
    Object(usize),
    Scalar(usize),
}

// A member's slot and Entry.
#[derive(Clone, Copy, Debug, PartialEq, Eq)]
pub struct MemberAt {
    pub slot: SlotOffset,
    pub entry: TreeOffset,
}

// The type of an Entry.
#[derive(Clone, Copy, Debug, PartialEq, Eq)]
pub enum Typed {
    False,
    True,
    Null,
    String,
    Number,
    Container,
}

// The Entry of the member with a key, if there is one, as the quick lookup gives it: with the comparisons of both
// halvings.
#[derive(Clone, Copy, Debug, PartialEq, Eq)]
pub struct Looked {
    pub entry: Option<TreeOffset>,
    pub first: usize,
    pub second: usize,
}
