// The questions at a Meta, each on lent bytes and a cursor, right even where nobody checked. What a question asks after
// its opening is a function of its own (`.._here`), given the document that is open, for walks that open once. The kind
// of a Meta stays a number where one kind is asked for: an enum would be made of every word first.
#![tactic(auto)]

pub mod object;

ghost use Rattle.std.specs.Prelude.{◌≡◌};
ghost use Rattle.json_model.specs.Reading.{ask};
ghost use Rattle.binary_json_rules.specs.Questions.{kind_here, kind_and_size, element_here, element, member_here, member_at};
ghost use Rattle.binary_json_answers.specs.Told.{told_sized, told_tree, told_member};
ghost use Rattle.binary_json_metas.specs.Asking.{ObjectRead};

use crate::object::Object;
use binary_json_answers::{MemberAt, Sized};
use binary_json_areas::asking::open;
use binary_json_areas::document::Document;
use binary_json_areas::offsets::TreeOffset;
use json_model::{Refusal, refuse};
use word::Fields;

// The kind and the size of the container at the cursor, after the opening.
#[tactic(auto, using(crate::proofs::Metas::kind_here_laws))]
pub fn kind_here(d: &Document<'_>, cursor: TreeOffset) -> Result<Sized, Refusal>
    ensures { told_sized result ≡ ask (kind_here d.now.bytes.now cursor.0) }
{
    let c = cursor.0;
    let Fields { low: kind, high: n } = d.word_here(c)?;
    let (words, sized) = match kind {
        0 => (n, Sized::Array(n)),
        1 => (2 * n, Sized::Object(n)),
        2 => (n, Sized::Scalar(n)),
        _ => return refuse(21, c),
    };
    if d.areas.index < c + 4 + 4 * words {
        return refuse(20, c);
    }
    Ok(sized)
}

// The kind and the size of the container at the cursor.
#[tactic(auto, using(crate::proofs::Metas::kind_laws))]
pub fn kind_and_size(doc: &[u8], cursor: TreeOffset) -> Result<Sized, Refusal>
    ensures { told_sized result ≡ ask (kind_and_size doc.now cursor.0) }
{
    kind_here(&open(doc, cursor.0)?, cursor)
}

// Element i of the array or top-level scalar at the cursor, after the opening.
#[tactic(auto, using(crate::proofs::Metas::element_here_laws))]
pub fn element_here(d: &Document<'_>, cursor: TreeOffset, i: usize) -> Result<TreeOffset, Refusal>
    ensures { told_tree result ≡ ask (element_here d.now.bytes.now cursor.0 i) }
{
    let c = cursor.0;
    let Fields { low: kind, high: n } = d.word_here(c)?;
    if kind != 0 && kind != 2 {
        return refuse(21, c);
    }
    if d.areas.index < c + 4 + 4 * n {
        return refuse(20, c);
    }
    if n <= i {
        return refuse(22, c);
    }
    Ok(TreeOffset(c + 4 + 4 * i))
}

// The Entry that is element i of the array or top-level scalar at the cursor.
#[tactic(auto, using(crate::proofs::Metas::element_laws))]
pub fn element(doc: &[u8], cursor: TreeOffset, i: usize) -> Result<TreeOffset, Refusal>
    ensures { told_tree result ≡ ask (element doc.now cursor.0 i) }
{
    element_here(&open(doc, cursor.0)?, cursor, i)
}

// The object at the cursor, which member j and both lookups are asked of, after the opening.
#[tactic(auto, using(crate::proofs::Metas::object_here_laws))]
pub fn object_here<'a>(d: &Document<'a>, cursor: TreeOffset) -> Result<Object<'a>, Refusal>
    ensures { ObjectRead d.now cursor.0 result }
{
    let c = cursor.0;
    let Fields { low: kind, high: n } = d.word_here(c)?;
    if kind != 1 {
        return refuse(21, c);
    }
    if d.areas.index < c + 4 + 4 * (2 * n) {
        return refuse(20, c);
    }
    Ok(Object {
        document: *d,
        place: c,
        size: n,
    })
}

// Member j of the object at the cursor, after the opening.
#[tactic(auto, using(crate::proofs::Metas::member_here_laws))]
pub fn member_here(d: &Document<'_>, cursor: TreeOffset, j: usize) -> Result<MemberAt, Refusal>
    ensures { told_member result ≡ ask (member_here d.now.bytes.now cursor.0 j) }
{
    let object = object_here(d, cursor)?;
    if object.size <= j {
        return refuse(22, cursor.0);
    }
    let slot = object.key(j);
    if !d.slot_named(slot) {
        return refuse(20, cursor.0);
    }
    Ok(MemberAt {
        slot,
        entry: object.entry(j),
    })
}

// The slot and the Entry of member j of the object at the cursor.
#[tactic(auto, using(crate::proofs::Metas::member_laws))]
pub fn member(doc: &[u8], cursor: TreeOffset, j: usize) -> Result<MemberAt, Refusal>
    ensures { told_member result ≡ ask (member_at doc.now cursor.0 j) }
{
    member_here(&open(doc, cursor.0)?, cursor, j)
}
