// The quick lookup and the plain scan of a key in an object, each proved equal to its rule.
#![tactic(auto)]

pub mod lookup;
