// What every question reads first: the key list, the header and the cursor. Then what most of them go on with: the
// length of a value of the type that is wanted.
ghost use Rattle.std.specs.Prelude.{◌≡◌, length};
ghost use Rattle.json_model.specs.Reading.{ask, told};
ghost use Rattle.fractured_json_rules.specs.Questions.{opening};
ghost use Rattle.fractured_json_values.specs.Opened.{ReadsNumeral};
ghost use Rattle.fractured_json_scalars.specs.Asked.{place_of, wanted_in, wanted_type};

use fractured_json_list::check_list;
use fractured_json_values::header::read_header;
use fractured_json_values::types::{ValueType, head_of};
use fractured_json_values::values::{Numeral, byte_at};
use json_model::{Refusal, Verdict, refuse};

// 51 to 54, 31 to 34, then 20 for a cursor under 3.
#[tactic(auto, using(crate::proofs::Entering::opening_laws))]
pub fn open_question(doc: &[u8], list: &[u8], at: usize) -> Verdict
    ensures { told result ≡ ask (opening doc.now list.now at) }
{
    check_list(list)?;
    read_header(doc)?;
    if at < 3 {
        return refuse(20, at);
    }
    Ok(())
}

// The place of a type in the order of `ValueType`.
fn place_of(kind: ValueType) -> u8
    ensures { result ≡ place_of kind }
{
    kind as u8
}

// The length of the value at the cursor (of a number its payload), by the place of the type that is wanted; 21 of any
// other, and where no type has that place.
#[tactic(auto, using(crate::proofs::Entering::wanted_laws))]
pub fn wanted(doc: &[u8], at: usize, want: u8) -> Result<Numeral, Refusal>
    ensures { ReadsNumeral (length doc.now) (ask (wanted_in doc.now at want)) result }
{
    let Some(head) = head_of(byte_at(doc, at)?) else {
        return refuse(36, at);
    };
    if place_of(head.kind) == want {
        return head.sized(doc, at);
    }
    refuse(21, at)
}

// The same by the type itself.
pub fn wanted_type(doc: &[u8], at: usize, want: ValueType) -> Result<Numeral, Refusal>
    ensures { ReadsNumeral (length doc.now) (ask (wanted_type doc.now at want)) result }
{
    wanted(doc, at, place_of(want))
}
