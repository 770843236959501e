// The string index: rules 5 and 6.
ghost use Rattle.std.specs.Prelude.{◌≡◌, ◌-◌, ◌≤◌, ◌<◌, length};
ghost use Rattle.json_model.specs.Bytes.{part};
ghost use Rattle.binary_json_rules.specs.Areas.{text};
ghost use Rattle.binary_json_check.specs.Slots.{Texts, Rule5, SlotKeeps, SlotsRead};

use binary_json_areas::areas::fields_at;
use binary_json_areas::header::Header;
use json_model::{Refusal, refuse};
use std::cmp::Ordering;
use word::Fields;

// A text from start up to end, without its closing byte. It takes no `Span`, which would be made for it alone.
fn content(doc: &[u8], start: usize, end: usize) -> &[u8]
    requires { (start < end) × (end ≤ length doc.now) }
    ensures { result.now ≡ part doc.now start (end - 1 - start) }
{
    &doc[start..end - 1]
}

// Rule 5 at slot k, whose text starts at `start`: where the text ends. The tests stand one by one: joined by `||` they
// take an instruction more at each slot.
#[tactic(auto, using(crate::proofs::Slots::slot_end_laws))]
fn slot_end(header: &Header<'_>, k: usize, start: usize) -> Result<usize, Refusal>
    requires { (k < header.now.count) × (start ≡ text header.now.bytes.now k) }
    ensures { Rule5 header.now.bytes.now k result }
{
    let doc = header.bytes;
    let at = header.index + 4 + 4 * k;
    let Fields { low, high: end } = fields_at(doc, at);
    if low != 0 {
        return refuse(5, at);
    }
    if end <= start {
        return refuse(5, at);
    }
    if doc.len() < end {
        return refuse(5, at);
    }
    let last = doc[end - 1];
    if last != 0 {
        return refuse(5, at);
    }
    Ok(end)
}

// Rules 5 and 6 at slot k: where its text ends.
#[tactic(auto, using(crate::proofs::Slots::read_slot_laws))]
fn read_slot(header: &Header<'_>, k: usize, before: usize, start: usize) -> Result<usize, Refusal>
    requires { (k < header.now.count) × Texts header.now.bytes.now k before start }
    ensures { SlotKeeps header.now.bytes.now k result }
{
    let doc = header.bytes;
    let end = slot_end(header, k, start)?;
    if k == 0 {
        return Ok(end);
    }
    match text::compare(content(doc, before, start), content(doc, start, end)) {
        Ordering::Less => Ok(end),
        Ordering::Equal | Ordering::Greater => refuse(6, header.index + 4 + 4 * k),
    }
}

// Rules 5 and 6 over all slots: where the numbers start.
#[tactic(auto, using(crate::proofs::Slots::read_slots_laws))]
pub(crate) fn read_slots(header: &Header<'_>) -> Result<usize, Refusal>
    ensures { SlotsRead header.now.bytes.now result }
{
    let mut start = header.index + 4 + 4 * header.count;
    let mut before = start;
    for k in 0..header.count {
        let end = read_slot(header, k, before, start)?;
        before = start;
        start = end;
    }
    Ok(start)
}
