// The promises of both readers, kept by their own calls. Each function makes calls and hands back what they answered;
// its contract is what specs/Promises.antt promises of the answers, and is proved from the contracts of the calls
// alone. No function here has a `requires`, so no call that it makes has one. Nothing here is meant to be run.
#![tactic(auto)]

ghost use Rattle.claims.specs.Promises.{CheckBinary, CheckBinaryTwice, AskBinary, LookUpBinary, BinaryStringText, BinarySlotText};
ghost use Rattle.claims.specs.Promises.{CheckList, AskFractured, CheckAndAskFractured, FracturedStringText, FracturedKeyText, MemberKeyText};
ghost use Rattle.claims.specs.Promises.{CompareTexts, BenchLine, BenchTotal};

use binary_json::{Looked, MemberAt, Sized, SlotOffset, TreeOffset, Typed};
use fractured_json::{Checked, Key, Kind, Member, Number};
use json_model::{Refusal, Span, Verdict};
use std::cmp::Ordering;
use text::Comparison;

// ---- BinaryJson

// The check.
#[tactic(auto, using(crate::proofs::BinaryJson::binary_laws))]
pub fn check_binary(doc: &[u8], marks: &mut [u8]) -> Verdict
    ensures { CheckBinary doc.now marks.old marks.new result }
{
    binary_json::check(doc, marks)
}

#[derive(Drop)]
pub struct TwoVerdicts {
    pub first: Verdict,
    pub second: Verdict,
}

// The check, and the check with other marks.
#[tactic(auto, using(crate::proofs::BinaryJson::binary_laws))]
pub fn check_binary_twice(doc: &[u8], marks: &mut [u8], other: &mut [u8]) -> TwoVerdicts
    ensures { CheckBinaryTwice doc.now marks.old marks.new other.old other.new result }
{
    let first = binary_json::check(doc, marks);
    let second = binary_json::check(doc, other);
    TwoVerdicts { first, second }
}

// What every question answers.
#[derive(Drop)]
pub struct BinaryAnswers {
    pub sized: Result<Sized, Refusal>,
    pub element: Result<TreeOffset, Refusal>,
    pub member: Result<MemberAt, Refusal>,
    pub typed: Result<Typed, Refusal>,
    pub container: Result<TreeOffset, Refusal>,
    pub string: Result<Span, Refusal>,
    pub number: Result<u64, Refusal>,
    pub slot: Result<Span, Refusal>,
}

// Every question that answers no bytes: at a Meta, with an index; at an Entry; at a slot.
#[tactic(auto, using(crate::proofs::BinaryJson::binary_laws))]
pub fn ask_binary(
    doc: &[u8],
    meta: TreeOffset,
    i: usize,
    entry: TreeOffset,
    place: SlotOffset,
) -> BinaryAnswers
    ensures { AskBinary doc.now meta.0 i entry.0 place.0 result }
{
    let sized = binary_json::kind_and_size(doc, meta);
    let element = binary_json::element(doc, meta, i);
    let member = binary_json::member(doc, meta, i);
    let typed = binary_json::entry_type(doc, entry);
    let container = binary_json::container(doc, entry);
    let string = binary_json::string(doc, entry);
    let number = binary_json::number(doc, entry);
    let slot = binary_json::slot(doc, place);
    BinaryAnswers {
        sized,
        element,
        member,
        typed,
        container,
        string,
        number,
        slot,
    }
}

// What both lookups answer.
#[derive(Drop)]
pub struct BothLookups {
    pub quick: Result<Looked, Refusal>,
    pub scan: Result<Option<TreeOffset>, Refusal>,
}

// Both lookups, at a Meta, with a key.
#[tactic(auto, using(crate::proofs::BinaryJson::binary_laws))]
pub fn look_up_binary(doc: &[u8], meta: TreeOffset, key: &[u8]) -> BothLookups
    ensures { LookUpBinary doc.now meta.0 key.now result }
{
    let quick = binary_json::quick_lookup(doc, meta, key);
    let scan = binary_json::plain_scan(doc, meta, key);
    BothLookups { quick, scan }
}

// The two calls that answer a part of the document.
#[tactic(auto, using(crate::proofs::BinaryJson::binary_laws))]
pub fn binary_string_text(doc: &[u8], entry: TreeOffset) -> &[u8]
    ensures { BinaryStringText doc.now entry.0 result.now }
{
    binary_json::string_text(doc, entry)
}

#[tactic(auto, using(crate::proofs::BinaryJson::binary_laws))]
pub fn binary_slot_text(doc: &[u8], place: SlotOffset) -> &[u8]
    ensures { BinarySlotText doc.now place.0 result.now }
{
    binary_json::slot_text(doc, place)
}

// ---- Fractured JSON

// The check of a key list.
#[tactic(auto, using(crate::proofs::FracturedJson::fractured_laws))]
pub fn check_list(list: &[u8]) -> Verdict
    ensures { CheckList list.now result }
{
    fractured_json::check_list(list)
}

// What every question answers.
#[derive(Drop)]
pub struct FracturedAnswers {
    pub end: Result<usize, Refusal>,
    pub kind: Result<Kind, Refusal>,
    pub number: Result<Number, Refusal>,
    pub string: Result<Span, Refusal>,
    pub element: Result<usize, Refusal>,
    pub member: Result<Member, Refusal>,
    pub first: Result<Option<usize>, Refusal>,
    pub key: Result<Key, Refusal>,
}

// Every question that answers no bytes, with any key table and count: at a value, with an index and a key; at a key
// byte.
#[tactic(auto, using(crate::proofs::FracturedJson::fractured_laws))]
pub fn ask_fractured(
    doc: &[u8],
    list: &[u8],
    keys: &[u32],
    count: usize,
    at: usize,
    i: usize,
    x: &[u8],
    k: usize,
) -> FracturedAnswers
    ensures { AskFractured doc.now list.now keys.now count at i x.now k result }
{
    let end = fractured_json::end(doc, list, keys, count, at);
    let kind = fractured_json::kind(doc, list, at);
    let number = fractured_json::number(doc, list, at);
    let string = fractured_json::string(doc, list, at);
    let element = fractured_json::element(doc, list, keys, count, at, i);
    let member = fractured_json::member(doc, list, keys, count, at, i);
    let first = fractured_json::first_member(doc, list, keys, count, at, x);
    let key = fractured_json::key(doc, list, keys, count, k);
    FracturedAnswers {
        end,
        kind,
        number,
        string,
        element,
        member,
        first,
        key,
    }
}

#[derive(Drop)]
pub struct FracturedChecked {
    pub verdict: Verdict,
    pub count: usize,
    pub answers: FracturedAnswers,
}

// The check, and then every question with the key table and the count that it left.
pub fn check_and_ask_fractured(
    doc: &[u8],
    list: &[u8],
    keys: &mut [u32],
    at: usize,
    i: usize,
    x: &[u8],
    k: usize,
) -> FracturedChecked
    ensures { CheckAndAskFractured doc.now list.now keys.old keys.new at i x.now k result }
{
    let Checked { verdict, count } = fractured_json::check(doc, list, keys);
    let answers = ask_fractured(doc, list, keys, count, at, i, x, k);
    FracturedChecked {
        verdict,
        count,
        answers,
    }
}

// The two calls that answer a part of the document or of the key list.
#[tactic(auto, using(crate::proofs::FracturedJson::fractured_laws))]
pub fn fractured_string_text<'a>(doc: &'a [u8], list: &[u8], at: usize) -> &'a [u8]
    ensures { FracturedStringText doc.now list.now at result.now }
{
    fractured_json::string_text(doc, list, at)
}

#[tactic(auto, using(crate::proofs::FracturedJson::fractured_laws))]
pub fn fractured_key_text<'a>(
    doc: &'a [u8],
    list: &'a [u8],
    keys: &[u32],
    count: usize,
    k: usize,
) -> &'a [u8]
    ensures { FracturedKeyText doc.now list.now keys.now count k result.now }
{
    fractured_json::key_text(doc, list, keys, count, k)
}

// The check, and the text of the key of a member.
#[tactic(auto, using(crate::proofs::FracturedJson::fractured_laws))]
pub fn member_key_text<'a>(
    doc: &'a [u8],
    list: &'a [u8],
    keys: &mut [u32],
    at: usize,
    j: usize,
) -> &'a [u8]
    ensures { MemberKeyText doc.now list.now keys.old at j result.now }
{
    let c = fractured_json::check(doc, list, keys);
    let count = c.count;
    let m = fractured_json::member(doc, list, keys, count, at, j);
    match m {
        Ok(Member { key, value: _ }) => fractured_json::key_text(doc, list, keys, count, key),
        Err(_) => &doc[..0],
    }
}

// ---- texts and the bench

#[derive(Drop)]
pub struct TextAnswers {
    pub compared: Comparison,
    pub order: Ordering,
    pub same: bool,
    pub hash: u64,
}

// Two texts compared, and the hash of the first.
pub fn compare_texts(a: &[u8], b: &[u8]) -> TextAnswers
    ensures { CompareTexts a.now b.now result }
{
    let compared = text::compare_with_steps(a, b);
    let order = text::compare(a, b);
    let same = text::same(a, b);
    let hash = text::hash::hash_of(a);
    TextAnswers {
        compared,
        order,
        same,
        hash,
    }
}

// The line that answers a line of the bench's input, and the last line.
pub fn bench_line(number: u64, line: &[u8], out: &mut [u8; 80]) -> usize
    ensures { BenchLine number line.now out.old out.new result }
{
    let answer = frame::answer_to(line);
    frame::text(number, answer, out)
}

pub fn bench_total(frames: u64, ok: u64, out: &mut [u8; 80]) -> usize
    ensures { BenchTotal frames ok out.old out.new result }
{
    frame::total(frames, ok, out)
}
