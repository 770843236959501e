// A number's 64 bits.
ghost use Rattle.std.specs.Prelude.{◌≡◌, true, ◌+◌, ◌^◌, ◌≤◌, ◌<◌, length};
ghost use Rattle.json_model.specs.Reading.{ask};
ghost use Rattle.fractured_json_rules.specs.ByteTables.{form_of};
ghost use Rattle.fractured_json_rules.specs.Questions.{extended, tiny_bits, number_by};
ghost use Rattle.fractured_json_scalars.specs.Asked.{PayloadSmall, number_type};
ghost use Rattle.fractured_json_answers.specs.Told.{told_number};

use fractured_json_answers::Number;
use fractured_json_values::types::{ValueType, head_of};
use fractured_json_values::values::is_finite;
use json_model::{Refusal, refuse};

// Of each width in bytes: the first number whose sign is minus, and the bits above the width. By a table: a shift by
// 64 - 8 * width fails at width 0, and casts fit four of the nine widths.
const SIGNS: [(u64, u64); 9] = [
    (1, 18446744073709551615),
    (128, 18446744073709551360),
    (32768, 18446744073709486080),
    (8388608, 18446744073692774400),
    (2147483648, 18446744069414584320),
    (549755813888, 18446742974197923840),
    (140737488355328, 18446462598732840960),
    (36028797018963968, 18374686479671623680),
    (9223372036854775808, 0),
];

// A number of so many bytes, extended by its sign.
#[tactic(auto, using(crate::proofs::NumberLaws::extend_laws))]
fn extend(width: usize, n: usize) -> u64
    requires { (width ≤ 8) × (n < 256 ^ width) }
    ensures { result ≡ extended true width n }
{
    let bits = n as u64;
    let (minus, above) = SIGNS[width];
    if bits < minus {
        return bits;
    }
    bits + above
}

// A tiny int, by its place in its range: the first is -32.
#[tactic(auto, using(crate::proofs::NumberLaws::tiny_laws))]
fn tiny_bits(n: usize) -> u64
    requires { n < 64 }
    ensures { result ≡ tiny_bits (n + 0xBE) }
{
    let bits = n as u64;
    bits.wrapping_sub(32)
}

// The number at a place by its type, with its payload `n`.
#[tactic(auto, using(crate::proofs::NumberLaws::number_type_laws))]
fn number_type(at: usize, b: u8, kind: ValueType, width: usize, n: usize) -> Result<Number, Refusal>
    requires { (width ≤ 8) × PayloadSmall kind width n }
    ensures { told_number result ≡ ask (number_type at b kind width n) }
{
    let bits = match kind {
        ValueType::Signed => extend(width, n),
        ValueType::Tiny => tiny_bits(n),
        _ => {
            if !is_finite(kind, n) {
                return refuse(43, at);
            }
            n as u64
        }
    };
    Ok(Number { type_byte: b, bits })
}

// The number at a place, whose type byte is `b`.
#[tactic(auto, using(crate::proofs::NumberLaws::number_of_laws))]
pub(crate) fn number_of(doc: &[u8], at: usize, b: u8) -> Result<Number, Refusal>
    requires { at < length doc.now }
    ensures { told_number result ≡ ask (number_by doc.now at b (form_of b)) }
{
    let Some(head) = head_of(b) else {
        return refuse(36, at);
    };
    match head.kind {
        ValueType::Null
        | ValueType::False
        | ValueType::True
        | ValueType::String
        | ValueType::Object
        | ValueType::Array => refuse(21, at),
        _ => {
            let payload = head.sized(doc, at)?;
            number_type(at, b, head.kind, head.width, payload.number)
        }
    }
}
