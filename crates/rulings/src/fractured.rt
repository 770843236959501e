// The questions of Fractured JSON: each is put to the reader with a key list without a name and the lent key table,
// and its answer spelled.
use crate::parse::{number, option};
use crate::questions::{Question, read};
use crate::spell::{self, Word, found, hex, ok, put_number, span};
use crate::unanswered::Unanswered;
use fractured_json::{Checked, Kind, Member, Number};
use std::alloc::{AllocError, Global};

// A key list without a name; also in `limits` and `frame`: a constant of a reader's crate would be no plainer.
const NO_NAMES: [u8; 3] = [0; 3];

fn kind(alloc: Global, k: Kind) -> Result<String, AllocError> {
    match k {
        Kind::Null => spell::answer(alloc, Word::Null, &[]),
        Kind::False => spell::answer(alloc, Word::False, &[]),
        Kind::True => spell::answer(alloc, Word::True, &[]),
        Kind::Number => spell::answer(alloc, Word::Number, &[]),
        Kind::String(n) => spell::answer(alloc, Word::String, &[n]),
        Kind::Object(n) => spell::answer(alloc, Word::Object, &[n]),
        Kind::Array(n) => spell::answer(alloc, Word::Array, &[n]),
    }
}

fn bits(alloc: Global, x: Number) -> Result<String, AllocError> {
    let Number { type_byte, bits } = x;
    ok(alloc, &[type_byte as usize, bits as usize])
}

fn member(alloc: Global, m: Member) -> Result<String, AllocError> {
    let Member { key, value } = m;
    ok(alloc, &[key, value])
}

// The verdict, the number of pairs, and their words.
fn check(alloc: Global, doc: &[u8], keys: &mut [u32]) -> Result<String, AllocError> {
    let Checked { verdict, count } = fractured_json::check(doc, &NO_NAMES, keys);
    let start = match verdict {
        Ok(()) => ok(alloc, &[count]),
        Err(r) => spell::answer(alloc, Word::Refused, &[r.number as usize, r.place, count]),
    };
    let mut text = start?;
    for word in keys.iter().take(count.saturating_mul(2)) {
        put_number(&mut text, *word as usize)?;
    }
    Ok(text)
}

fn ask(
    alloc: Global,
    doc: &[u8],
    keys: &mut [u32],
    count: usize,
    question: Question,
) -> Result<String, Unanswered> {
    let list = &NO_NAMES;
    let told = match question {
        Question::Check => check(alloc, doc, keys),
        Question::End(at) => {
            let end = fractured_json::end(doc, list, keys, count, at)?;
            ok(alloc, &[end])
        }
        Question::Kind(at) => kind(alloc, fractured_json::kind(doc, list, at)?),
        Question::Number(at) => bits(alloc, fractured_json::number(doc, list, at)?),
        Question::String(at) => span(alloc, fractured_json::string(doc, list, at)?),
        Question::StringText(at) => hex(alloc, fractured_json::string_text(doc, list, at)),
        Question::Element(at, i) => {
            let value = fractured_json::element(doc, list, keys, count, at, i)?;
            ok(alloc, &[value])
        }
        Question::Member(at, i) => {
            let at_index = fractured_json::member(doc, list, keys, count, at, i)?;
            member(alloc, at_index)
        }
        Question::FirstMember(at, key) => {
            let value = fractured_json::first_member(doc, list, keys, count, at, &key)?;
            found(alloc, value)
        }
        _ => return Err(Unanswered::Unreadable),
    };
    Ok(told?)
}

// ---- the lent key table

// The most words that a row lends, which is more than any needs.
const MOST_WORDS: usize = 256;

// The value of an option, if the words start with it, and the words after it.
fn option_of<'w, 'r>(words: &'w [&'r [u8]], name: &[u8]) -> (Option<&'r [u8]>, &'w [&'r [u8]]) {
    if let [first, rest @ ..] = words
        && let Some(value) = option(first, name)
    {
        return (Some(value), rest);
    }
    (None, words)
}

// The key table: its first words are given, or none, and then come zeros. It is as long as the row says, or else just
// as long as the words that are given, or has 8 words where none are.
fn lend(alloc: Global, len: Option<&[u8]>, given: Option<&[u8]>) -> Result<Vec<u32>, Unanswered> {
    let mut keys = match given {
        Some(given) => given
            .split(|c| *c == b',')
            .take(MOST_WORDS + 1)
            .map(|word| number(word))
            .try_collect(alloc)?,
        None => Vec::new(alloc),
    };
    let len = match len {
        Some(len) => number(len)?,
        None if keys.is_empty() => 8,
        None => keys.len(),
    };
    if len < keys.len() || MOST_WORDS < len {
        return Err(Unanswered::Unreadable);
    }
    keys.resize(len, 0)?;
    Ok(keys)
}

// Spells the answer to the question of a row.
pub(crate) fn answer(alloc: Global, doc: &[u8], words: &[&[u8]]) -> Result<String, Unanswered> {
    let (len, words) = option_of(words, b"words");
    let (given, words) = option_of(words, b"table");
    let (count, words) = option_of(words, b"count");
    let mut keys = lend(alloc, len, given)?;
    let count = match count {
        Some(count) => number(count)?,
        None => 0,
    };
    // the greatest number is none that a row may lend, and what the program answers may not change
    if count == usize::MAX {
        return Err(Unanswered::Unreadable);
    }
    ask(alloc, doc, &mut keys, count, read(alloc, words)?)
}
