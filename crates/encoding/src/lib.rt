// Answers as numbers of the C interface: what is returned, and what is written over the lent words.
#![tactic(auto)]

pub mod binary;
pub mod fractured;
pub mod texts;
pub mod words;
