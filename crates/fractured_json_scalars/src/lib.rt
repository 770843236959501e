// The questions put to a Fractured JSON document that need no key table, each proved equal to its rule in
// `fractured_json_rules`; and what every question reads first.
#![tactic(auto)]

pub mod enter;
mod kinds;
mod numbers;
pub mod questions;
