// What a BinaryJson answer hands over, case by case. Each call has its own arm for a refusal: over a shared
// `give(out, answer.map(|t| [t.0 as u64]))` the check did not prove `give_tree`, and an answer is longer than the arm.
// Each call has its own bound, the most words that it answers with: its export tests that before it asks.
ghost use Rattle.std.specs.Prelude.{◌≡◌, ◌≤◌, length};
ghost use Rattle.json_model.specs.Reading.{told};
ghost use Rattle.binary_json_answers.specs.Told.{told_sized, told_tree, told_member, told_type, told_bits, told_scan, told_lookup, sized_of, type_of};
ghost use Rattle.encoding.specs.Encoding.{hands, given, coded, nothing, one, sized, member_at, found, counted};

use crate::words::{hand, refuse};
use binary_json_answers::{Looked, MemberAt, Sized, Typed};
use binary_json_areas::offsets::TreeOffset;
use json_model::{Refusal, Verdict};

// A verdict has no values.
pub fn give_verdict(out: &mut [u64], answer: Verdict) -> u32
    requires { 1 ≤ length out.old }
    ensures { hands result out.new ≡ given out.old (coded nothing (told answer)) }
{
    match answer {
        Ok(()) => hand(out, 0, []),
        Err(r) => refuse(out, r),
    }
}

// The number of a kind, and the size. A function and no `From`: both types are of other crates.
pub fn kind_and_size(s: Sized) -> [u64; 2]
    ensures { result ≡ sized (sized_of s) }
{
    match s {
        Sized::Array(n) => [0, n as u64],
        Sized::Object(n) => [1, n as u64],
        Sized::Scalar(n) => [2, n as u64],
    }
}

// Kind and size.
pub fn give_sized(out: &mut [u64], answer: Result<Sized, Refusal>) -> u32
    requires { 2 ≤ length out.old }
    ensures { hands result out.new ≡ given out.old (coded sized (told_sized answer)) }
{
    match answer {
        Ok(s) => hand(out, 0, kind_and_size(s)),
        Err(r) => refuse(out, r),
    }
}

// An offset.
pub fn give_tree(out: &mut [u64], answer: Result<TreeOffset, Refusal>) -> u32
    requires { 1 ≤ length out.old }
    ensures { hands result out.new ≡ given out.old (coded one (told_tree answer)) }
{
    match answer {
        Ok(t) => hand(out, 0, [t.0 as u64]),
        Err(r) => refuse(out, r),
    }
}

// Slot and Entry.
pub fn give_member(out: &mut [u64], answer: Result<MemberAt, Refusal>) -> u32
    requires { 2 ≤ length out.old }
    ensures { hands result out.new ≡ given out.old (coded member_at (told_member answer)) }
{
    match answer {
        Ok(MemberAt { slot, entry }) => hand(out, 0, [slot.0 as u64, entry.0 as u64]),
        Err(r) => refuse(out, r),
    }
}

// The number of a type. A function and no `From`: both types are of other crates.
pub fn type_number(t: Typed) -> u64
    ensures { result ≡ type_of t }
{
    match t {
        Typed::False => 0,
        Typed::True => 1,
        Typed::Null => 2,
        Typed::String => 3,
        Typed::Number => 4,
        Typed::Container => 5,
    }
}

// A type, as its number.
pub fn give_type(out: &mut [u64], answer: Result<Typed, Refusal>) -> u32
    requires { 1 ≤ length out.old }
    ensures { hands result out.new ≡ given out.old (coded one (told_type answer)) }
{
    match answer {
        Ok(t) => hand(out, 0, [type_number(t)]),
        Err(r) => refuse(out, r),
    }
}

// 64 bits.
pub fn give_bits(out: &mut [u64], answer: Result<u64, Refusal>) -> u32
    requires { 1 ≤ length out.old }
    ensures { hands result out.new ≡ given out.old (coded one (told_bits answer)) }
{
    match answer {
        Ok(n) => hand(out, 0, [n]),
        Err(r) => refuse(out, r),
    }
}

// 1 and the Entry, or 0.
pub fn give_scan(out: &mut [u64], answer: Result<Option<TreeOffset>, Refusal>) -> u32
    requires { 2 ≤ length out.old }
    ensures { hands result out.new ≡ given out.old (coded found (told_scan answer)) }
{
    match answer {
        Ok(Some(t)) => hand(out, 0, [1, t.0 as u64]),
        Ok(None) => hand(out, 0, [0]),
        Err(r) => refuse(out, r),
    }
}

// 1, both counts and the Entry, or 0 and both counts; of a refusal, the place and the counts 0 and 0.
pub fn give_lookup(out: &mut [u64], answer: Result<Looked, Refusal>) -> u32
    requires { 4 ≤ length out.old }
    ensures { hands result out.new ≡ given out.old (counted (told_lookup answer)) }
{
    match answer {
        Ok(
            Looked {
                entry,
                first,
                second,
            },
        ) => {
            let first = first as u64;
            let second = second as u64;
            match entry {
                Some(t) => hand(out, 0, [1, first, second, t.0 as u64]),
                None => hand(out, 0, [0, first, second]),
            }
        }
        Err(r) => hand(out, r.number, [r.place as u64, 0, 0]),
    }
}
