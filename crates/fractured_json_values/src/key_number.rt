// The number that a key byte carries, in itself or as a v_uint16 after it.
ghost use Rattle.std.specs.Prelude.{◌≡◌, false, ◌+◌, ◌≤◌, ◌<◌, length, get_or};
ghost use Rattle.json_model.specs.Reading.{ask};
ghost use Rattle.fractured_json_rules.specs.ByteTables.{spelled};
ghost use Rattle.fractured_json_rules.specs.Verdict.{after_first, key_number_at};
ghost use Rattle.fractured_json_values.specs.Opened.{ReadsNumeral};
ghost use Rattle.fractured_json_values.specs.Heads.{key_number_by};

use crate::values::Numeral;
use json_model::{Refusal, refuse};

// The byte at a place, as a number to count with.
fn byte(doc: &[u8], at: usize) -> usize
    requires { at < length doc.now }
    ensures { (result ≡ get_or doc.now at 0) × (result < 256) }
{
    doc[at] as usize
}

// The v_uint16 after the byte at a place, whose first byte says that another follows.
#[tactic(auto, using(crate::proofs::Numbering::later_laws))]
fn after_first(doc: &[u8], at: usize, b0: usize) -> Result<Numeral, Refusal>
    requires { (at + 1 < length doc.now) × (128 ≤ b0) × (b0 < 256) }
    ensures { ReadsNumeral (length doc.now) (ask (after_first doc.now at b0 false)) result }
{
    if doc.len() - at <= 2 {
        return refuse(35, at);
    }
    let b1 = byte(doc, at + 2);
    if b1 < 128 {
        return Ok(Numeral {
            number: b0 - 128 + 128 * b1,
            past: at + 3,
        });
    }
    if doc.len() - at <= 3 {
        return refuse(35, at);
    }
    let b2 = byte(doc, at + 3);
    if 3 < b2 {
        return refuse(37, at + 3);
    }
    Ok(Numeral {
        number: b0 - 128 + 128 * (b1 - 128) + 16384 * b2,
        past: at + 4,
    })
}

// The v_uint16 after the byte at a place.
#[tactic(auto, using(crate::proofs::Numbering::first_laws))]
fn spelled_at(doc: &[u8], at: usize) -> Result<Numeral, Refusal>
    requires { at < length doc.now }
    ensures { ReadsNumeral (length doc.now) (ask (key_number_at doc.now at spelled)) result }
{
    if doc.len() - at <= 1 {
        return refuse(35, at);
    }
    let b0 = byte(doc, at + 1);
    if b0 < 128 {
        return Ok(Numeral {
            number: b0,
            past: at + 2,
        });
    }
    after_first(doc, at, b0)
}

// The number that the key byte at a place carries.
#[tactic(auto, using(crate::proofs::Numbering::key_number_laws))]
pub fn key_number_at(doc: &[u8], at: usize, number: Option<usize>) -> Result<Numeral, Refusal>
    requires { at < length doc.now }
    ensures { ReadsNumeral (length doc.now) (ask (key_number_at doc.now at (key_number_by number))) result }
{
    let Some(number) = number else {
        return spelled_at(doc, at);
    };
    Ok(Numeral {
        number,
        past: at + 1,
    })
}
