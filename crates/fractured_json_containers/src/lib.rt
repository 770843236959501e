// The questions put to a Fractured JSON document that walk over values and keys by a key table, each proved equal to
// its rule in `fractured_json_rules`.
#![tactic(auto)]

mod lookup;
pub mod questions;
mod skip;

pub use skip::Lent;
