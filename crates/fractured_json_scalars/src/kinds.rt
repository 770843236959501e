// A value's kind.
ghost use Rattle.std.specs.Prelude.{◌≡◌, ◌<◌, length};
ghost use Rattle.json_model.specs.Reading.{ask};
ghost use Rattle.fractured_json_rules.specs.ByteTables.{form_of};
ghost use Rattle.fractured_json_rules.specs.Questions.{kind_by};
ghost use Rattle.fractured_json_answers.specs.Told.{told_kind};

use fractured_json_answers::Kind;
use fractured_json_values::types::{ValueType, head_of};
use json_model::{Refusal, refuse};

// The kind of the value at a place, whose type byte is `b`. It reads no payload and no text.
#[tactic(auto, using(crate::proofs::KindLaws::kind_of_laws))]
pub(crate) fn kind_of(doc: &[u8], at: usize, b: u8) -> Result<Kind, Refusal>
    requires { at < length doc.now }
    ensures { told_kind result ≡ ask (kind_by doc.now at (form_of b)) }
{
    let Some(head) = head_of(b) else {
        return refuse(36, at);
    };
    Ok(match head.kind {
        ValueType::Null => Kind::Null,
        ValueType::False => Kind::False,
        ValueType::True => Kind::True,
        ValueType::String => Kind::String(head.sized(doc, at)?.number),
        ValueType::Object => Kind::Object(head.sized(doc, at)?.number),
        ValueType::Array => Kind::Array(head.sized(doc, at)?.number),
        _ => Kind::Number,
    })
}
