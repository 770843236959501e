// The Fractured JSON reader for callers in C: the checks and the questions, over numbers and lent slices.
#![tactic(auto, using(crate::proofs::Handing::handing_laws))]

ghost use Rattle.std.specs.Prelude.{◌≡◌, ltb, length};
ghost use Rattle.json_model.specs.Choose.{choose};
ghost use Rattle.json_model.specs.Reading.{ask};
ghost use Rattle.fractured_json_rules.specs.KeyList.{key_list};
ghost use Rattle.fractured_json_rules.specs.KeyTable.{checked};
ghost use Rattle.fractured_json_rules.specs.Questions.{end_of, kind as kind_at, number_at, string_at, element_at, member_at, first_member, key_at};
ghost use Rattle.encoding.specs.Encoding.{hands, handed, coded, nothing, one, place_and_length, kind, bits, key_and_value, value_at, key_at as key, checked_by};

use encoding::words::TOO_FEW;
use fractured_json::Checked;

// The check of a key list.
#[unsafe(no_mangle)]
pub extern "C" fn fj_check_list(list: &[u8], out: &mut [u64]) -> u32
    ensures { hands result out.new ≡ handed 1 out.old (coded nothing (ask (key_list list.now))) }
{
    if out.is_empty() {
        return TOO_FEW;
    }
    encoding::binary::give_verdict(out, fractured_json::check_list(list))
}

// The check with a lent key table. Where too few words are lent for the answer, the key table too stays as it was.
#[unsafe(no_mangle)]
pub extern "C" fn fj_check(doc: &[u8], list: &[u8], keys: &mut [u32], out: &mut [u64]) -> u32
    ensures out_after { hands result out.new ≡ handed 2 out.old (checked_by (checked doc.now list.now keys.old).count (checked doc.now list.now keys.old).verdict) }
    ensures keys_after { keys.new ≡ choose (ltb (length out.old) 2) keys.old (checked doc.now list.now keys.old).words }
{
    if out.len() < 2 {
        return TOO_FEW;
    }
    let Checked { verdict, count } = fractured_json::check(doc, list, keys);
    encoding::fractured::give_checked(out, verdict, count)
}

// Where a value ends.
#[unsafe(no_mangle)]
pub extern "C" fn fj_end(
    doc: &[u8],
    list: &[u8],
    keys: &[u32],
    count: usize,
    at: usize,
    out: &mut [u64],
) -> u32
    ensures { hands result out.new ≡ handed 1 out.old (coded one (ask (end_of doc.now list.now keys.now count at))) }
{
    if out.is_empty() {
        return TOO_FEW;
    }
    encoding::fractured::give_place(out, fractured_json::end(doc, list, keys, count, at))
}

// The kind of a value.
#[unsafe(no_mangle)]
pub extern "C" fn fj_kind(doc: &[u8], list: &[u8], at: usize, out: &mut [u64]) -> u32
    ensures { hands result out.new ≡ handed 2 out.old (coded kind (ask (kind_at doc.now list.now at))) }
{
    if out.len() < 2 {
        return TOO_FEW;
    }
    encoding::fractured::give_kind(out, fractured_json::kind(doc, list, at))
}

// A number.
#[unsafe(no_mangle)]
pub extern "C" fn fj_number(doc: &[u8], list: &[u8], at: usize, out: &mut [u64]) -> u32
    ensures { hands result out.new ≡ handed 2 out.old (coded bits (ask (number_at doc.now list.now at))) }
{
    if out.len() < 2 {
        return TOO_FEW;
    }
    encoding::fractured::give_number(out, fractured_json::number(doc, list, at))
}

// The text of a string.
#[unsafe(no_mangle)]
pub extern "C" fn fj_string(doc: &[u8], list: &[u8], at: usize, out: &mut [u64]) -> u32
    ensures { hands result out.new ≡ handed 2 out.old (coded place_and_length (ask (string_at doc.now list.now at))) }
{
    if out.len() < 2 {
        return TOO_FEW;
    }
    encoding::texts::give_span(out, fractured_json::string(doc, list, at))
}

// Element i of an array.
#[unsafe(no_mangle)]
pub extern "C" fn fj_element(
    doc: &[u8],
    list: &[u8],
    keys: &[u32],
    count: usize,
    at: usize,
    i: usize,
    out: &mut [u64],
) -> u32
    ensures { hands result out.new ≡ handed 1 out.old (coded one (ask (element_at doc.now list.now keys.now count at i))) }
{
    if out.is_empty() {
        return TOO_FEW;
    }
    encoding::fractured::give_place(out, fractured_json::element(doc, list, keys, count, at, i))
}

// Member j of an object.
#[unsafe(no_mangle)]
pub extern "C" fn fj_member(
    doc: &[u8],
    list: &[u8],
    keys: &[u32],
    count: usize,
    at: usize,
    j: usize,
    out: &mut [u64],
) -> u32
    ensures { hands result out.new ≡ handed 2 out.old (coded key_and_value (ask (member_at doc.now list.now keys.now count at j))) }
{
    if out.len() < 2 {
        return TOO_FEW;
    }
    encoding::fractured::give_member(out, fractured_json::member(doc, list, keys, count, at, j))
}

// The first member of an object with a key.
#[unsafe(no_mangle)]
pub extern "C" fn fj_first_member(
    doc: &[u8],
    list: &[u8],
    keys: &[u32],
    count: usize,
    at: usize,
    key: &[u8],
    out: &mut [u64],
) -> u32
    ensures { hands result out.new ≡ handed 2 out.old (coded value_at (ask (first_member doc.now list.now keys.now count at key.now))) }
{
    if out.len() < 2 {
        return TOO_FEW;
    }
    encoding::fractured::give_found(
        out,
        fractured_json::first_member(doc, list, keys, count, at, key),
    )
}

// A key.
#[unsafe(no_mangle)]
pub extern "C" fn fj_key(
    doc: &[u8],
    list: &[u8],
    keys: &[u32],
    count: usize,
    at: usize,
    out: &mut [u64],
) -> u32
    ensures { hands result out.new ≡ handed 4 out.old (coded key (ask (key_at doc.now list.now keys.now count at))) }
{
    if out.len() < 4 {
        return TOO_FEW;
    }
    encoding::fractured::give_key(out, fractured_json::key(doc, list, keys, count, at))
}
