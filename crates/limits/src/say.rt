// How a verdict is written.
use json_model::Verdict;
use std::fmt;

#[derive(Drop)]
pub(crate) struct Said(pub Verdict);

impl fmt::Display for Said {
    fn fmt<W: fmt::Write>(&self, f: &mut fmt::Formatter<W>) -> fmt::Result {
        match self.0 {
            Ok(()) => write!(f, "ok"),
            Err(r) => write!(f, "no {} {}", r.number, r.place),
        }
    }
}
