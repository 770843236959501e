// The questions at an Entry and at a slot, each on lent bytes and a cursor, right even where nobody checked. What a
// question asks after its opening is a function of its own (`.._here`), given the document that is open, for walks that
// open once. The type of an Entry stays a number where one type is asked for: an enum would be made of every word
// first.
#![tactic(auto)]

ghost use Rattle.std.specs.Prelude.{◌≡◌};
ghost use Rattle.json_model.specs.Reading.{ask};
ghost use Rattle.json_model.specs.Span.{spanned};
ghost use Rattle.binary_json_rules.specs.Questions.{text_named, slot_text, slot_bytes, type_here, entry_type, container_here, container_at, string_here, string_at, string_bytes, number_here, number_at};
ghost use Rattle.binary_json_entries.specs.Values.{ValueRead};
ghost use Rattle.binary_json_answers.specs.Told.{SpanInside, told_tree, told_type, told_span, told_bits};

use binary_json_answers::Typed;
use binary_json_areas::areas::part;
use binary_json_areas::asking::open;
use binary_json_areas::document::Document;
use binary_json_areas::named::NoNumber;
use binary_json_areas::offsets::{NumberOffset, SlotOffset, TreeOffset};
use json_model::{Refusal, Span, refuse};
use word::Fields;

// ---- at an Entry

// The type of the Entry at the cursor, after the opening.
#[tactic(auto, using(crate::proofs::Entries::type_here_laws))]
pub fn type_here(d: &Document<'_>, cursor: TreeOffset) -> Result<Typed, Refusal>
    ensures { told_type result ≡ ask (type_here d.now.bytes.now cursor.0) }
{
    let c = cursor.0;
    let kind = d.word_here(c)?.low;
    match kind {
        0 => Ok(Typed::False),
        1 => Ok(Typed::True),
        2 => Ok(Typed::Null),
        3 => Ok(Typed::String),
        4 => Ok(Typed::Number),
        5 => Ok(Typed::Container),
        _ => refuse(21, c),
    }
}

// The type of the Entry at the cursor.
#[tactic(auto, using(crate::proofs::Entries::type_laws))]
pub fn entry_type(doc: &[u8], cursor: TreeOffset) -> Result<Typed, Refusal>
    ensures { told_type result ≡ ask (entry_type doc.now cursor.0) }
{
    type_here(&open(doc, cursor.0)?, cursor)
}

// The value of the Entry at a place, which is to be of one type.
#[tactic(auto, using(crate::proofs::Entries::value_laws))]
fn value_of(d: &Document<'_>, at: usize, kind: usize) -> Result<usize, Refusal>
    ensures { ValueRead d.now.bytes.now at kind result }
{
    let Fields { low, high } = d.word_here(at)?;
    if low != kind {
        return refuse(21, at);
    }
    Ok(high)
}

// The container that the Entry at the cursor names, after the opening.
#[tactic(auto, using(crate::proofs::Entries::container_here_laws))]
pub fn container_here(d: &Document<'_>, cursor: TreeOffset) -> Result<TreeOffset, Refusal>
    ensures { told_tree result ≡ ask (container_here d.now.bytes.now cursor.0) }
{
    let c = cursor.0;
    let value = value_of(d, c, 5)?;
    if d.tree_word(value) {
        return Ok(TreeOffset(value));
    }
    refuse(20, c)
}

// The container that the Entry at the cursor names.
#[tactic(auto, using(crate::proofs::Entries::container_laws))]
pub fn container(doc: &[u8], cursor: TreeOffset) -> Result<TreeOffset, Refusal>
    ensures { told_tree result ≡ ask (container_at doc.now cursor.0) }
{
    container_here(&open(doc, cursor.0)?, cursor)
}

// The number of the Entry at the cursor, after the opening.
#[tactic(auto, using(crate::proofs::Entries::number_here_laws))]
pub fn number_here(d: &Document<'_>, cursor: TreeOffset) -> Result<u64, Refusal>
    ensures { told_bits result ≡ ask (number_here d.now.bytes.now cursor.0) }
{
    let c = cursor.0;
    let value = value_of(d, c, 4)?;
    match d.number_named(NumberOffset(value)) {
        Ok(bits) => Ok(bits),
        Err(NoNumber::NotFinite) => refuse(10, c),
        Err(NoNumber::Outside) => refuse(20, c),
    }
}

// The number of the Entry at the cursor: its 64 bits.
#[tactic(auto, using(crate::proofs::Entries::number_laws))]
pub fn number(doc: &[u8], cursor: TreeOffset) -> Result<u64, Refusal>
    ensures { told_bits result ≡ ask (number_at doc.now cursor.0) }
{
    number_here(&open(doc, cursor.0)?, cursor)
}

// The string of the Entry at the cursor, after the opening.
#[tactic(auto, using(crate::proofs::Entries::string_here_laws))]
pub fn string_here(d: &Document<'_>, cursor: TreeOffset) -> Result<Span, Refusal>
    ensures { told_span result ≡ ask (string_here d.now.bytes.now cursor.0) }
{
    let c = cursor.0;
    let value = value_of(d, c, 3)?;
    let text = d.text_named(SlotOffset(value));
    text.ok_or(Refusal {
        place: c,
        number: 20,
    })
}

// The string of the Entry at the cursor: where it stands and how long it is.
#[tactic(auto, using(crate::proofs::Entries::string_laws))]
pub fn string(doc: &[u8], cursor: TreeOffset) -> Result<Span, Refusal>
    ensures { told_span result ≡ ask (string_at doc.now cursor.0) }
{
    string_here(&open(doc, cursor.0)?, cursor)
}

// The part of the document that an answer gives; empty at a refusal.
fn part_of(doc: &[u8], answer: Result<Span, Refusal>) -> &[u8]
    requires { SpanInside doc.now answer }
    ensures { result.now ≡ spanned doc.now (told_span answer) }
{
    match answer {
        Ok(span) => part(doc, span),
        Err(_) => &doc[..0],
    }
}

// The string itself, a part of the document; empty at a refusal. No `Result`: the rules' `string_bytes` says so, and
// what this call answers may not change.
#[tactic(auto, using(crate::proofs::Entries::string_text_laws))]
pub fn string_text(doc: &[u8], cursor: TreeOffset) -> &[u8]
    ensures { result.now ≡ string_bytes doc.now cursor.0 }
{
    part_of(doc, string(doc, cursor))
}

// ---- at a slot

// The text of the slot at the cursor, after the opening.
pub fn slot_here(d: &Document<'_>, cursor: SlotOffset) -> Result<Span, Refusal>
    ensures { told_span result ≡ ask (text_named d.now.bytes.now cursor.0 cursor.0) }
{
    d.text_named(cursor).ok_or(Refusal {
        place: cursor.0,
        number: 20,
    })
}

// The text of the slot at the cursor: where it stands and how long it is.
#[tactic(auto, using(crate::proofs::Entries::slot_laws))]
pub fn slot(doc: &[u8], cursor: SlotOffset) -> Result<Span, Refusal>
    ensures { told_span result ≡ ask (slot_text doc.now cursor.0) }
{
    slot_here(&open(doc, cursor.0)?, cursor)
}

// The text itself, a part of the document; empty at a refusal, as the rules' `slot_bytes` is.
#[tactic(auto, using(crate::proofs::Entries::slot_text_laws))]
pub fn slot_text(doc: &[u8], cursor: SlotOffset) -> &[u8]
    ensures { result.now ≡ slot_bytes doc.now cursor.0 }
{
    part_of(doc, slot(doc, cursor))
}
