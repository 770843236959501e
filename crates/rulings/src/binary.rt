// The questions of BinaryJson: each is put to the reader, and its answer spelled. A row of the check may lend marks,
// and then says what they hold afterwards.
use crate::parse::{bytes, option};
use crate::questions::{Question, read};
use crate::spell::{self, Word, found, hex, ok, put_hex, refusal, span};
use crate::unanswered::Unanswered;
use binary_json::{Looked, MemberAt, Sized, SlotOffset, TreeOffset, Typed};
use encoding::binary::{kind_and_size, type_number};
use json_model::{Refusal, Verdict};
use std::alloc::{AllocError, Global};

fn sized(alloc: Global, s: Sized) -> Result<String, AllocError> {
    let [kind, size] = kind_and_size(s);
    ok(alloc, &[kind as usize, size as usize])
}

fn typed(alloc: Global, t: Typed) -> Result<String, AllocError> {
    ok(alloc, &[type_number(t) as usize])
}

fn member(alloc: Global, m: MemberAt) -> Result<String, AllocError> {
    let MemberAt { slot, entry } = m;
    ok(alloc, &[slot.0, entry.0])
}

// With both counts, which are 0 at a refusal.
fn looked(alloc: Global, told: Result<Looked, Refusal>) -> Result<String, AllocError> {
    match told {
        Ok(l) => match l.entry {
            Some(at) => ok(alloc, &[at.0, l.first, l.second]),
            None => spell::answer(alloc, Word::Absent, &[l.first, l.second]),
        },
        Err(r) => spell::answer(alloc, Word::Refused, &[r.number as usize, r.place, 0, 0]),
    }
}

fn verdict(alloc: Global, v: Verdict) -> Result<String, AllocError> {
    match v {
        Ok(()) => ok(alloc, &[]),
        Err(r) => refusal(alloc, r),
    }
}

// The check with marks enough for any row, and noise in them.
fn check(alloc: Global, doc: &[u8]) -> Result<String, AllocError> {
    let mut marks = [0xA5u8; 512];
    verdict(alloc, binary_json::check(doc, &mut marks))
}

fn ask(alloc: Global, doc: &[u8], question: Question) -> Result<String, Unanswered> {
    let told = match question {
        Question::Check => check(alloc, doc),
        Question::KindAndSize(at) => sized(alloc, binary_json::kind_and_size(doc, TreeOffset(at))?),
        Question::EntryType(at) => typed(alloc, binary_json::entry_type(doc, TreeOffset(at))?),
        Question::Container(at) => ok(alloc, &[binary_json::container(doc, TreeOffset(at))?.0]),
        Question::Number(at) => ok(alloc, &[binary_json::number(doc, TreeOffset(at))? as usize]),
        Question::Slot(at) => span(alloc, binary_json::slot(doc, SlotOffset(at))?),
        Question::SlotText(at) => hex(alloc, binary_json::slot_text(doc, SlotOffset(at))),
        Question::String(at) => span(alloc, binary_json::string(doc, TreeOffset(at))?),
        Question::StringText(at) => hex(alloc, binary_json::string_text(doc, TreeOffset(at))),
        Question::Element(at, i) => ok(alloc, &[binary_json::element(doc, TreeOffset(at), i)?.0]),
        Question::Member(at, i) => member(alloc, binary_json::member(doc, TreeOffset(at), i)?),
        Question::PlainScan(at, key) => {
            let entry = binary_json::plain_scan(doc, TreeOffset(at), &key)?;
            found(alloc, entry.map(|at| at.0))
        }
        Question::QuickLookup(at, key) => {
            looked(alloc, binary_json::quick_lookup(doc, TreeOffset(at), &key))
        }
        _ => return Err(Unanswered::Unreadable),
    };
    Ok(told?)
}

// The verdict, and the lent marks afterwards.
fn check_with(alloc: Global, doc: &[u8], marks: &mut [u8]) -> Result<String, AllocError> {
    let mut text = verdict(alloc, binary_json::check(doc, marks))?;
    text.push_str(" marks=")?;
    put_hex(&mut text, marks)?;
    Ok(text)
}

// How many marks a row lends at most.
const MOST_MARKS: usize = 64;

// Spells the answer to the question of a row.
pub(crate) fn answer(alloc: Global, doc: &[u8], words: &[&[u8]]) -> Result<String, Unanswered> {
    if let [first, b"check", ..] = words
        && let Some(marks) = option(first, b"marks")
    {
        let mut marks = bytes(alloc, marks, MOST_MARKS)?;
        return Ok(check_with(alloc, doc, &mut marks)?);
    }
    ask(alloc, doc, read(alloc, words)?)
}
