// The keys that the check has passed, or the names of a key list: their pairs in a table, and chains of those that fall
// into one bucket of hashes, by which rules 39 and 54 are tested.
#![tactic(auto)]

pub mod chains;
pub mod pairs;
