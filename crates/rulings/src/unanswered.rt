// Why a row's question has no answer of its own.
use json_model::Refusal;
use std::alloc::AllocError;

// The row cannot be read, the reader refuses, or memory is out.
#[derive(Drop)]
pub(crate) enum Unanswered {
    Unreadable,
    Refused(Refusal),
    Memory(AllocError),
}

impl From<Refusal> for Unanswered {
    fn from(r: Refusal) -> Unanswered {
        Unanswered::Refused(r)
    }
}

impl From<AllocError> for Unanswered {
    fn from(e: AllocError) -> Unanswered {
        Unanswered::Memory(e)
    }
}
