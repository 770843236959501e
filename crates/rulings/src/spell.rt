// How answers are spelled.
ghost use Rattle.std.specs.Prelude.{◌≡◌, ◌++◌, OnOk, IfOk, codes, flat_map, string_bytes};
ghost use Rattle.rulings.specs.Spelled.{spaced, spelling};

use json_model::{Refusal, Span};
use std::alloc::{AllocError, Global};

// What an answer starts with.
#[derive(Clone, Copy)]
pub(crate) enum Word {
    Answered,
    Absent,
    Refused,
    Null,
    False,
    True,
    Number,
    String,
    Object,
    Array,
}

impl Word {
    fn spelling(self) -> &'static str
        ensures { result.now ≡ spelling self }
    {
        match self {
            Word::Answered => "ok",
            Word::Absent => "absent",
            Word::Refused => "no",
            Word::Null => "ok null",
            Word::False => "ok false",
            Word::True => "ok true",
            Word::Number => "ok number",
            Word::String => "ok string",
            Word::Object => "ok object",
            Word::Array => "ok array",
        }
    }
}

// Puts a space and a number after a text.
pub(crate) fn put_number(text: &mut String, x: usize) -> Result<(), AllocError>
    ensures { OnOk result (string_bytes text.new ≡ string_bytes text.old ++ spaced x) }
{
    write!(text, " {x}")
}

// How many bytes most answers have at most.
const MOST_WRITTEN: usize = 64;

// A word, and numbers after it.
pub(crate) fn answer(alloc: Global, word: Word, numbers: &[usize]) -> Result<String, AllocError>
    ensures { IfOk result (λ text. string_bytes text ≡ spelling word ++ flat_map spaced numbers.now) }
{
    let mut text = String::with_capacity(alloc, MOST_WRITTEN)?;
    text.push_str(word.spelling())?;
    for x in numbers {
        put_number(&mut text, *x)?;
    }
    Ok(text)
}

pub(crate) fn ok(alloc: Global, numbers: &[usize]) -> Result<String, AllocError>
    ensures { IfOk result (λ text. string_bytes text ≡ codes "ok" ++ flat_map spaced numbers.now) }
{
    answer(alloc, Word::Answered, numbers)
}

pub(crate) fn refusal(alloc: Global, r: Refusal) -> Result<String, AllocError>
    ensures { IfOk result (λ text. string_bytes text ≡ codes "no" ++ spaced r.number ++ spaced r.place) }
{
    answer(alloc, Word::Refused, &[r.number as usize, r.place])
}

pub(crate) fn span(alloc: Global, s: Span) -> Result<String, AllocError> {
    ok(alloc, &[s.place, s.len])
}

// The place of what was sought, if it is there.
pub(crate) fn found(alloc: Global, place: Option<usize>) -> Result<String, AllocError> {
    match place {
        Some(at) => ok(alloc, &[at]),
        None => answer(alloc, Word::Absent, &[]),
    }
}

// The digits of a text in hexadecimal, which has no small letters.
const DIGITS: [char; 16] = [
    '0', '1', '2', '3', '4', '5', '6', '7', '8', '9', 'A', 'B', 'C', 'D', 'E', 'F',
];

// Puts a text in hexadecimal, or `-`, after a text. By digits: with `{:02X}` a row of 60 marks takes 1.5 times the time.
pub(crate) fn put_hex(text: &mut String, bytes: &[u8]) -> Result<(), AllocError> {
    if bytes.is_empty() {
        return text.push('-');
    }
    for byte in bytes {
        text.push(DIGITS[usize::from(byte / 16)])?;
        text.push(DIGITS[usize::from(byte % 16)])?;
    }
    Ok(())
}

pub(crate) fn hex(alloc: Global, bytes: &[u8]) -> Result<String, AllocError> {
    let mut text = String::new(alloc);
    put_hex(&mut text, bytes)?;
    Ok(text)
}
