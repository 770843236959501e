// What stands at a type byte: its length or payload, and a value read up to a container's contents.
ghost use Rattle.std.specs.Prelude.{◌≡◌, ◌+◌, ◌-◌, ◌≤◌, ◌<◌, length, Some};
ghost use Rattle.json_model.specs.Bytes.{number};
ghost use Rattle.json_model.specs.Reading.{ask};
ghost use Rattle.fractured_json_values.specs.Heads.{head};
ghost use Rattle.fractured_json_values.specs.declared.types.ValueType.TheVariants.{Binary64};
ghost use Rattle.fractured_json_values.specs.Opened.{sized_at, finite_type, finite_at, FloatInside, FloatWidth, LengthWidth, open_scalar, open_type, open_head, opened_at, ReadsByte, ReadsNumeral, Below, told_open};

use crate::types::{BINARY64, Head, LITERALS, ValueType, head_of};
use json_model::{Refusal, refuse};

// A number, and where it ends.
#[derive(Clone, Copy)]
pub struct Numeral {
    pub number: usize,
    pub past: usize,
}

impl Head {
    // The length or payload of the value at a place: in its type byte, or in the bytes after it. That the place lies
    // inside stays a bound, here and in the keys: a struct of document and place would be made for each byte read.
    #[tactic(auto, using(crate::proofs::Opening::sized_laws))]
    pub fn sized(self, doc: &[u8], at: usize) -> Result<Numeral, Refusal>
        requires { (self.width ≤ 8) × (at < length doc.now) }
        ensures { ReadsNumeral (length doc.now) (ask (sized_at doc.now at self.width self.tiny)) result × Below self.width result }
    {
        let Head {
            kind: _,
            width,
            tiny,
        } = self;
        if width == 0 {
            return Ok(Numeral {
                number: tiny,
                past: at + 1,
            });
        }
        if doc.len() - at <= width {
            return refuse(35, at);
        }
        let number = word::integer(doc, at + 1, width) as usize;
        Ok(Numeral {
            number,
            past: at + 1 + width,
        })
    }
}

// The byte at a place.
#[inline(always)]
#[tactic(auto, using(crate::proofs::Opening::byte_laws))]
pub fn byte_at(doc: &[u8], at: usize) -> Result<u8, Refusal>
    ensures { ReadsByte doc.now at result }
{
    if doc.len() <= at {
        return refuse(35, at);
    }
    Ok(doc[at])
}

// A value without contents, by its end; or a container's contents, by their number and place. Both walks go through an
// object and an array by one loop, for which `object` is a test.
#[derive(Clone, Copy)]
pub enum Open {
    Leaf(usize),
    Container { at: usize, n: usize, object: bool },
}

// A float is finite; whatever is no float passes. By the exponent, as the rules have it: of `f64::is_finite` it would
// first have to be shown that it is the same.
#[tactic(auto, using(crate::proofs::Opening::finite_laws))]
pub fn is_finite(kind: ValueType, n: usize) -> bool
    ensures { result ≡ finite_type kind n }
{
    match kind {
        ValueType::Binary32 => n / 8388608 % 256 != 255,
        ValueType::Binary64 => n / 4503599627370496 % 2048 != 2047,
        _ => true,
    }
}

// The value at a place by its type, with length or payload `n`, which ends at `past`, in a document of `len` bytes.
#[tactic(auto, using(crate::proofs::Opening::type_laws))]
fn open_type(len: usize, at: usize, kind: ValueType, n: usize, past: usize) -> Result<Open, Refusal>
    requires { past ≤ len }
    ensures { told_open result ≡ ask (open_type len at kind n past) }
{
    if !kind.has_length() {
        if is_finite(kind, n) {
            return Ok(Open::Leaf(past));
        }
        return refuse(43, at);
    }
    // One comparison each, strings first: a `match` with scalars in it takes eight instructions more a string.
    if kind == ValueType::String {
        if len - past < n {
            return refuse(35, at);
        }
        return Ok(Open::Leaf(past + n));
    }
    match kind {
        ValueType::Object => Ok(Open::Container {
            at: past,
            n,
            object: true,
        }),
        _ => Ok(Open::Container {
            at: past,
            n,
            object: false,
        }),
    }
}

// The value at a place whose length is in its type byte, or which has none.
#[tactic(auto, using(crate::proofs::Opening::tiny_open_laws))]
fn open_tiny(len: usize, at: usize, kind: ValueType, tiny: usize) -> Result<Open, Refusal>
    requires { (at < len) × FloatWidth kind 0 }
    ensures { told_open result ≡ ask (open_type len at kind tiny (at + 1)) }
{
    if !kind.has_length() {
        return Ok(Open::Leaf(at + 1));
    }
    open_type(len, at, kind, tiny, at + 1)
}

// Whether a float at a place is finite, by the two bytes that hold its exponent; whatever is no float passes. Beside
// `is_finite`: the walks read two bytes of a float, a question its whole payload.
#[tactic(auto, using(crate::proofs::Opening::finite_at_laws))]
fn finite_at(doc: &[u8], at: usize, kind: ValueType) -> bool
    requires { FloatInside doc.now at kind }
    ensures { result ≡ finite_at doc.now at kind }
{
    match kind {
        ValueType::Binary32 => {
            let high = word::integer(doc, at + 3, 2);
            high / 128 % 256 != 255
        }
        ValueType::Binary64 => {
            let high = word::integer(doc, at + 7, 2);
            high / 16 % 2048 != 2047
        }
        _ => true,
    }
}

// The length in the bytes after the byte at a place. Each width is a number in its own arm, so that it compiles to one
// load: by a width that is known only when it runs, `word::integer` would also try eight bytes and a loop.
#[tactic(auto, using(crate::proofs::Opening::length_at_laws))]
fn length_at(doc: &[u8], at: usize, width: usize) -> usize
    requires { LengthWidth width × (width < length doc.now - at) }
    ensures { result ≡ number doc.now (at + 1) width }
{
    if width == 1 {
        return word::integer(doc, at + 1, 1) as usize;
    }
    if width == 2 {
        return word::integer(doc, at + 1, 2) as usize;
    }
    word::integer(doc, at + 1, 4) as usize
}

// The number at a place, whose payload takes so many bytes.
#[tactic(auto, using(crate::proofs::Opening::scalar_laws))]
fn open_scalar(doc: &[u8], at: usize, kind: ValueType, width: usize) -> Result<Open, Refusal>
    requires { FloatWidth kind width × (width < length doc.now - at) }
    ensures { told_open result ≡ ask (open_scalar at kind (number doc.now (at + 1) width) (at + 1 + width)) }
{
    if finite_at(doc, at, kind) {
        return Ok(Open::Leaf(at + 1 + width));
    }
    refuse(43, at)
}

// The binary64 at a place: the most frequent number has a branch of its own, so that its end does not wait for a width
// that is looked up by its type byte.
#[tactic(auto, using(crate::proofs::Opening::binary64_laws))]
fn open_binary64(doc: &[u8], at: usize) -> Result<Open, Refusal>
    requires { at < length doc.now }
    ensures { told_open result ≡ ask (open_head doc.now at (Some (head Binary64 8 0))) }
{
    if doc.len() - at <= 8 {
        return refuse(35, at);
    }
    if finite_at(doc, at, ValueType::Binary64) {
        return Ok(Open::Leaf(at + 9));
    }
    refuse(43, at)
}

// The value at a place, up to a container's contents. Nothing is read of an int's payload, and of a float's no more
// than the exponent. Both walks step by it, so it is inlined into each.
#[inline(always)]
#[tactic(auto, using(crate::proofs::Opening::open_laws))]
pub fn open_at(doc: &[u8], at: usize) -> Result<Open, Refusal>
    ensures { told_open result ≡ ask (opened_at doc.now at) }
{
    let b = byte_at(doc, at)?;
    // Null, false and true need no head: to make one and ask for its type takes 1.7 times the instructions.
    if b < LITERALS {
        return Ok(Open::Leaf(at + 1));
    }
    if b == BINARY64 {
        return open_binary64(doc, at);
    }
    let Some(Head { kind, width, tiny }) = head_of(b) else {
        return refuse(36, at);
    };
    if width == 0 {
        return open_tiny(doc.len(), at, kind, tiny);
    }
    if doc.len() - at <= width {
        return refuse(35, at);
    }
    if !kind.has_length() {
        return open_scalar(doc, at, kind, width);
    }
    let n = length_at(doc, at, width);
    open_type(doc.len(), at, kind, n, at + 1 + width)
}
