// What the check answers. specs/Told.antt says what it means.
use json_model::Verdict;

// The verdict of the check, and the number of pairs in the key table.
#[derive(Drop)]
pub struct Checked {
    pub verdict: Verdict,
    pub count: usize,
}
