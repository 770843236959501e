// The questions of both formats, by name, and their arguments.
use crate::parse::{bytes, number, text};
use crate::unanswered::Unanswered;
use std::alloc::Global;

// How many bytes a key has at most.
const MOST_KEY: usize = 256;

// A question with its cursor, and with its index or key.
#[derive(Drop)]
pub(crate) enum Question {
    Check,
    End(usize),
    Kind(usize),
    KindAndSize(usize),
    EntryType(usize),
    Container(usize),
    Number(usize),
    Slot(usize),
    SlotText(usize),
    String(usize),
    StringText(usize),
    Element(usize, usize),
    Member(usize, usize),
    PlainScan(usize, Vec<u8>),
    QuickLookup(usize, Vec<u8>),
    FirstMember(usize, Vec<u8>),
}

fn at_cursor(name: &str, cursor: usize) -> Result<Question, Unanswered> {
    match name {
        "end" => Ok(Question::End(cursor)),
        "kind" => Ok(Question::Kind(cursor)),
        "kind_and_size" => Ok(Question::KindAndSize(cursor)),
        "entry_type" => Ok(Question::EntryType(cursor)),
        "container" => Ok(Question::Container(cursor)),
        "number" => Ok(Question::Number(cursor)),
        "slot" => Ok(Question::Slot(cursor)),
        "slot_text" => Ok(Question::SlotText(cursor)),
        "string" => Ok(Question::String(cursor)),
        "string_text" => Ok(Question::StringText(cursor)),
        _ => Err(Unanswered::Unreadable),
    }
}

fn inside(alloc: Global, name: &str, cursor: usize, last: &[u8]) -> Result<Question, Unanswered> {
    match name {
        "element" => Ok(Question::Element(cursor, number(last)?)),
        "member" => Ok(Question::Member(cursor, number(last)?)),
        "plain_scan" => Ok(Question::PlainScan(cursor, bytes(alloc, last, MOST_KEY)?)),
        "quick_lookup" => Ok(Question::QuickLookup(cursor, bytes(alloc, last, MOST_KEY)?)),
        "first_member" => Ok(Question::FirstMember(cursor, bytes(alloc, last, MOST_KEY)?)),
        _ => Err(Unanswered::Unreadable),
    }
}

// The question that the words are.
pub(crate) fn read(alloc: Global, words: &[&[u8]]) -> Result<Question, Unanswered> {
    match *words {
        [b"check"] => Ok(Question::Check),
        [name, cursor] => at_cursor(text(name), number(cursor)?),
        [name, cursor, last] => inside(alloc, text(name), number(cursor)?, last),
        _ => Err(Unanswered::Unreadable),
    }
}
