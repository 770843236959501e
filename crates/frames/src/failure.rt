// Why a run of the bench ended early.
use std::{fmt, io};

// The read that failed, the write, or the read and then the write of the answers that waited.
#[derive(Drop)]
pub(crate) enum Failure {
    Read(io::Error),
    Write(io::Error),
    Both { read: io::Error, write: io::Error },
}

impl fmt::Display for Failure {
    fn fmt<W: fmt::Write>(&self, f: &mut fmt::Formatter<W>) -> fmt::Result {
        match self {
            Failure::Read(e) => write!(f, "read: {e}"),
            Failure::Write(e) => write!(f, "write: {e}"),
            Failure::Both { read, write } => write!(f, "read: {read}\nwrite: {write}"),
        }
    }
}
