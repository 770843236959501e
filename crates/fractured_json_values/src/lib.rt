// What the check and the questions share: the constant tables of type and key bytes, the value and the key number at a
// place, texts and the header.
#![tactic(auto)]

pub mod header;
pub mod key_number;
pub mod texts;
pub mod types;
pub mod values;
