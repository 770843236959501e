// The questions that need no key table: a value's kind, a number, a string and its text. Each is right for all bytes,
// key lists and cursors, and reads only what it needs, in the order of the rules. What it asks after the opening is a
// function of its own (`.._here`), for walks that open once.
ghost use Rattle.std.specs.Prelude.{◌≡◌};
ghost use Rattle.json_model.specs.Reading.{ask};
ghost use Rattle.fractured_json_rules.specs.Questions.{kind_here, kind as kind_at, number_here, number_at, string_here, string_at, string_bytes};
ghost use Rattle.fractured_json_answers.specs.Told.{told_kind, told_number, told_text};

use crate::enter::{open_question, wanted_type};
use crate::kinds::kind_of;
use crate::numbers::number_of;
use fractured_json_answers::{Kind, Number};
use fractured_json_values::texts::text_of;
use fractured_json_values::types::ValueType;
use fractured_json_values::values::{Numeral, byte_at};
use json_model::{Refusal, Span, refuse};

// What the value at the cursor is, after the opening.
#[tactic(auto, using(crate::proofs::QuestionLaws::kind_here_laws))]
pub fn kind_here(doc: &[u8], at: usize) -> Result<Kind, Refusal>
    ensures { told_kind result ≡ ask (kind_here doc.now at) }
{
    kind_of(doc, at, byte_at(doc, at)?)
}

// What the value at the cursor is, with the length of a string or container.
#[tactic(auto, using(crate::proofs::QuestionLaws::kind_laws))]
pub fn kind(doc: &[u8], list: &[u8], at: usize) -> Result<Kind, Refusal>
    ensures { told_kind result ≡ ask (kind_at doc.now list.now at) }
{
    open_question(doc, list, at)?;
    kind_here(doc, at)
}

// The number at the cursor, after the opening.
#[tactic(auto, using(crate::proofs::QuestionLaws::number_here_laws))]
pub fn number_here(doc: &[u8], at: usize) -> Result<Number, Refusal>
    ensures { told_number result ≡ ask (number_here doc.now at) }
{
    number_of(doc, at, byte_at(doc, at)?)
}

// The number at the cursor: its type byte and 64 bits.
#[tactic(auto, using(crate::proofs::QuestionLaws::number_laws))]
pub fn number(doc: &[u8], list: &[u8], at: usize) -> Result<Number, Refusal>
    ensures { told_number result ≡ ask (number_at doc.now list.now at) }
{
    open_question(doc, list, at)?;
    number_here(doc, at)
}

// The string at the cursor, after the opening.
#[tactic(auto, using(crate::proofs::QuestionLaws::string_here_laws))]
pub fn string_here(doc: &[u8], at: usize) -> Result<Span, Refusal>
    ensures { told_text result ≡ ask (string_here doc.now at) }
{
    let Numeral {
        number: len,
        past: place,
    } = wanted_type(doc, at, ValueType::String)?;
    if doc.len() - place < len {
        return refuse(35, at);
    }
    Ok(Span { place, len })
}

// The string at the cursor: where its text stands and how long it is.
#[tactic(auto, using(crate::proofs::QuestionLaws::string_laws))]
pub fn string(doc: &[u8], list: &[u8], at: usize) -> Result<Span, Refusal>
    ensures { told_text result ≡ ask (string_at doc.now list.now at) }
{
    open_question(doc, list, at)?;
    string_here(doc, at)
}

// The text of the string at the cursor, as a part of the document; empty at a refusal. No `Result`: the rules'
// `string_bytes` says so, and what this call answers may not change.
pub fn string_text<'a>(doc: &'a [u8], list: &[u8], at: usize) -> &'a [u8]
    ensures { result.now ≡ string_bytes doc.now list.now at }
{
    match string(doc, list, at) {
        Err(_) => text_of(doc, 0, 0),
        Ok(text) => text_of(doc, text.place, text.len),
    }
}
