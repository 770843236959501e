// The areas of a BinaryJson document: where they stand, the words in them and what those name, and what comes before
// every question. Words are read here and nowhere else; check, questions and lookups stand on it.
#![tactic(auto)]

pub mod areas;
pub mod asking;
pub mod document;
pub mod header;
pub mod named;
pub mod offsets;
