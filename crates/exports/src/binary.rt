// The BinaryJson reader for callers in C: the check, the questions and both lookups, over numbers and lent slices.
#![tactic(auto, using(crate::proofs::Handing::handing_laws))]

ghost use Rattle.std.specs.Prelude.{◌≡◌, ltb, length};
ghost use Rattle.json_model.specs.Choose.{choose};
ghost use Rattle.json_model.specs.Reading.{ask, kept_of, verdict_of};
ghost use Rattle.binary_json_rules.specs.Verdict.{verdict};
ghost use Rattle.binary_json_rules.specs.Questions.{kind_and_size, element, member_at as member, entry_type, container_at, string_at, number_at, slot_text};
ghost use Rattle.binary_json_rules.specs.Lookup.{quick_lookup, lookup_of, plain_scan};
ghost use Rattle.encoding.specs.Encoding.{hands, handed, coded, nothing, one, place_and_length, sized, member_at, found, counted};

use binary_json::{SlotOffset, TreeOffset};
use encoding::words::TOO_FEW;

// The check with lent marks. Where no word is lent for the answer, the marks too stay as they were.
#[unsafe(no_mangle)]
pub extern "C" fn bj_check(doc: &[u8], marks: &mut [u8], out: &mut [u64]) -> u32
    ensures out_after { hands result out.new ≡ handed 1 out.old (coded nothing (verdict_of (verdict doc.now marks.old))) }
    ensures marks_after { marks.new ≡ choose (ltb (length out.old) 1) marks.old (kept_of (verdict doc.now marks.old)) }
{
    if out.is_empty() {
        return TOO_FEW;
    }
    let v = binary_json::check(doc, marks);
    encoding::binary::give_verdict(out, v)
}

// Kind and size of the container at a Meta.
#[unsafe(no_mangle)]
pub extern "C" fn bj_kind_and_size(doc: &[u8], tree: usize, out: &mut [u64]) -> u32
    ensures { hands result out.new ≡ handed 2 out.old (coded sized (ask (kind_and_size doc.now tree))) }
{
    if out.len() < 2 {
        return TOO_FEW;
    }
    encoding::binary::give_sized(out, binary_json::kind_and_size(doc, TreeOffset(tree)))
}

// The Entry of element i.
#[unsafe(no_mangle)]
pub extern "C" fn bj_element(doc: &[u8], tree: usize, i: usize, out: &mut [u64]) -> u32
    ensures { hands result out.new ≡ handed 1 out.old (coded one (ask (element doc.now tree i))) }
{
    if out.is_empty() {
        return TOO_FEW;
    }
    encoding::binary::give_tree(out, binary_json::element(doc, TreeOffset(tree), i))
}

// Slot and Entry of member j.
#[unsafe(no_mangle)]
pub extern "C" fn bj_member(doc: &[u8], tree: usize, j: usize, out: &mut [u64]) -> u32
    ensures { hands result out.new ≡ handed 2 out.old (coded member_at (ask (member doc.now tree j))) }
{
    if out.len() < 2 {
        return TOO_FEW;
    }
    encoding::binary::give_member(out, binary_json::member(doc, TreeOffset(tree), j))
}

// The type of an Entry.
#[unsafe(no_mangle)]
pub extern "C" fn bj_entry_type(doc: &[u8], tree: usize, out: &mut [u64]) -> u32
    ensures { hands result out.new ≡ handed 1 out.old (coded one (ask (entry_type doc.now tree))) }
{
    if out.is_empty() {
        return TOO_FEW;
    }
    encoding::binary::give_type(out, binary_json::entry_type(doc, TreeOffset(tree)))
}

// The Meta of the container that an Entry names.
#[unsafe(no_mangle)]
pub extern "C" fn bj_container(doc: &[u8], tree: usize, out: &mut [u64]) -> u32
    ensures { hands result out.new ≡ handed 1 out.old (coded one (ask (container_at doc.now tree))) }
{
    if out.is_empty() {
        return TOO_FEW;
    }
    encoding::binary::give_tree(out, binary_json::container(doc, TreeOffset(tree)))
}

// The text of the string that an Entry names.
#[unsafe(no_mangle)]
pub extern "C" fn bj_string(doc: &[u8], tree: usize, out: &mut [u64]) -> u32
    ensures { hands result out.new ≡ handed 2 out.old (coded place_and_length (ask (string_at doc.now tree))) }
{
    if out.len() < 2 {
        return TOO_FEW;
    }
    encoding::texts::give_span(out, binary_json::string(doc, TreeOffset(tree)))
}

// The 64 bits of the number that an Entry names.
#[unsafe(no_mangle)]
pub extern "C" fn bj_number(doc: &[u8], tree: usize, out: &mut [u64]) -> u32
    ensures { hands result out.new ≡ handed 1 out.old (coded one (ask (number_at doc.now tree))) }
{
    if out.is_empty() {
        return TOO_FEW;
    }
    encoding::binary::give_bits(out, binary_json::number(doc, TreeOffset(tree)))
}

// The text that a slot names.
#[unsafe(no_mangle)]
pub extern "C" fn bj_slot(doc: &[u8], slot: usize, out: &mut [u64]) -> u32
    ensures { hands result out.new ≡ handed 2 out.old (coded place_and_length (ask (slot_text doc.now slot))) }
{
    if out.len() < 2 {
        return TOO_FEW;
    }
    encoding::texts::give_span(out, binary_json::slot(doc, SlotOffset(slot)))
}

// The quick lookup of a key in the object at a Meta.
#[unsafe(no_mangle)]
pub extern "C" fn bj_quick_lookup(doc: &[u8], tree: usize, key: &[u8], out: &mut [u64]) -> u32
    ensures { hands result out.new ≡ handed 4 out.old (counted (lookup_of (ask (quick_lookup doc.now tree key.now)))) }
{
    if out.len() < 4 {
        return TOO_FEW;
    }
    encoding::binary::give_lookup(out, binary_json::quick_lookup(doc, TreeOffset(tree), key))
}

// The plain scan for a key in the object at a Meta.
#[unsafe(no_mangle)]
pub extern "C" fn bj_plain_scan(doc: &[u8], tree: usize, key: &[u8], out: &mut [u64]) -> u32
    ensures { hands result out.new ≡ handed 2 out.old (coded found (ask (plain_scan doc.now tree key.now))) }
{
    if out.len() < 2 {
        return TOO_FEW;
    }
    encoding::binary::give_scan(out, binary_json::plain_scan(doc, TreeOffset(tree), key))
}
