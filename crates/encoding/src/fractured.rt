// What a Fractured JSON answer hands over, case by case. Each call has its own arm for a refusal, as in `binary`.
ghost use Rattle.std.specs.Prelude.{◌≡◌, ◌≤◌, length};
ghost use Rattle.json_model.specs.Reading.{told};
ghost use Rattle.fractured_json_answers.specs.Told.{told_place, told_kind, told_number, told_member, told_found, told_key};
ghost use Rattle.encoding.specs.Encoding.{hands, given, coded, one, kind, bits, key_and_value, value_at, key_at, checked_by};

use crate::words::{hand, refuse};
use fractured_json_answers::{Key, Kind, Member, Number};
use json_model::{Refusal, Verdict};

// The number of pairs, after the place of a refusal.
pub fn give_checked(out: &mut [u64], verdict: Verdict, count: usize) -> u32
    requires { 2 ≤ length out.old }
    ensures { hands result out.new ≡ given out.old (checked_by count (told verdict)) }
{
    match verdict {
        Ok(()) => hand(out, 0, [count as u64]),
        Err(r) => hand(out, r.number, [r.place as u64, count as u64]),
    }
}

// A place.
pub fn give_place(out: &mut [u64], answer: Result<usize, Refusal>) -> u32
    requires { 1 ≤ length out.old }
    ensures { hands result out.new ≡ given out.old (coded one (told_place answer)) }
{
    match answer {
        Ok(n) => hand(out, 0, [n as u64]),
        Err(r) => refuse(out, r),
    }
}

// A kind, and the length of a string or container.
pub fn give_kind(out: &mut [u64], answer: Result<Kind, Refusal>) -> u32
    requires { 2 ≤ length out.old }
    ensures { hands result out.new ≡ given out.old (coded kind (told_kind answer)) }
{
    match answer {
        Ok(Kind::Null) => hand(out, 0, [0]),
        Ok(Kind::False) => hand(out, 0, [1]),
        Ok(Kind::True) => hand(out, 0, [2]),
        Ok(Kind::Number) => hand(out, 0, [3]),
        Ok(Kind::String(n)) => hand(out, 0, [4, n as u64]),
        Ok(Kind::Object(n)) => hand(out, 0, [5, n as u64]),
        Ok(Kind::Array(n)) => hand(out, 0, [6, n as u64]),
        Err(r) => refuse(out, r),
    }
}

// Type byte and 64 bits.
pub fn give_number(out: &mut [u64], answer: Result<Number, Refusal>) -> u32
    requires { 2 ≤ length out.old }
    ensures { hands result out.new ≡ given out.old (coded bits (told_number answer)) }
{
    match answer {
        Ok(Number { type_byte, bits }) => hand(out, 0, [type_byte as u64, bits]),
        Err(r) => refuse(out, r),
    }
}

// Key byte and value.
pub fn give_member(out: &mut [u64], answer: Result<Member, Refusal>) -> u32
    requires { 2 ≤ length out.old }
    ensures { hands result out.new ≡ given out.old (coded key_and_value (told_member answer)) }
{
    match answer {
        Ok(Member { key, value }) => hand(out, 0, [key as u64, value as u64]),
        Err(r) => refuse(out, r),
    }
}

// 1 and the value, or 0.
pub fn give_found(out: &mut [u64], answer: Result<Option<usize>, Refusal>) -> u32
    requires { 2 ≤ length out.old }
    ensures { hands result out.new ≡ given out.old (coded value_at (told_found answer)) }
{
    match answer {
        Ok(Some(n)) => hand(out, 0, [1, n as u64]),
        Ok(None) => hand(out, 0, [0]),
        Err(r) => refuse(out, r),
    }
}

// Lender, place and length of a key's text, and where its value starts.
pub fn give_key(out: &mut [u64], answer: Result<Key, Refusal>) -> u32
    requires { 4 ≤ length out.old }
    ensures { hands result out.new ≡ given out.old (coded key_at (told_key answer)) }
{
    match answer {
        Ok(Key::Document { place, len, past }) => hand(
            out,
            0,
            [0, place as u64, len as u64, past as u64],
        ),
        Ok(Key::List { place, len, past }) => hand(
            out,
            0,
            [1, place as u64, len as u64, past as u64],
        ),
        Err(r) => refuse(out, r),
    }
}
