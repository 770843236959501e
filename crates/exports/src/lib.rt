// Both readers for callers in C or Rust: each call of `binary_json` and `fractured_json`, and the comparing of two
// texts, over numbers and lent slices. Each export is written out, since C calls it by a name of its own, and its
// parameters are those of C.
#![tactic(auto)]

pub mod binary;
pub mod fractured;
pub mod texts;
