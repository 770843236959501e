// The tree: rules 8 to 12 and 14. Containers are walked by calls, with the levels left falling; KeyEntries and Entries
// by loops. The kind of a Meta and the type of an Entry stay numbers: each is asked for where it is read, and an enum
// that is made of the number first would be one `match` more.
ghost use Rattle.std.specs.Prelude.{◌≡◌, ◌+◌, ◌-◌, ◌*◌, ◌/◌, ◌^◌, ◌≤◌, ◌<◌, length};
ghost use Rattle.json_model.specs.Reading.{told, ask};
ghost use Rattle.binary_json_rules.specs.Areas.{low, high, kind_of};
ghost use Rattle.binary_json_rules.specs.Verdict.{key_entries, entry, mark_body, container, scalar, root_by};
ghost use Rattle.binary_json_rules.specs.Marks.{words};
ghost use Rattle.binary_json_check.specs.Told.{told_marks};
ghost use Rattle.binary_json_check.specs.Walks.{Stepped, BodyIs};

use binary_json_areas::areas::{Areas, fields_at, word_at};
use binary_json_areas::document::Document;
use binary_json_areas::named::NoNumber;
use binary_json_areas::offsets::{NumberOffset, SlotOffset};
use json_model::limits::DEEPEST;
use json_model::{Refusal, Verdict, refuse};
use word::Fields;

// Rule 11: n KeyEntries from a place on, each a slot's offset and above the one before. The string index stands below
// all slots, so that one test serves for the first slot and for the one before.
#[tactic(auto, using(crate::proofs::Walks::key_laws))]
fn key_entries(d: &Document<'_>, first: usize, n: usize) -> Verdict
    requires { first + 4 * n ≤ d.now.areas.index }
    ensures { told result ≡ ask (key_entries d.now.bytes.now n 0 first) }
{
    let Areas { index, count, .. } = d.areas;
    let end = index + 4 + 4 * count;
    let mut before = index;
    for k in 0..n {
        let at = first + 4 * k;
        let v = word_at(d.bytes, at);
        if v <= before || (v - index) % 4 != 0 || end <= v {
            return refuse(11, at);
        }
        before = v;
    }
    Ok(())
}

// Rules 9 and 10 at an Entry: the container it names, which is then walked.
#[tactic(auto, using(crate::proofs::Walks::entry_laws))]
fn read_entry(d: &Document<'_>, parent: usize, at: usize) -> Result<Option<usize>, Refusal>
    requires { at + 4 ≤ d.now.areas.index }
    ensures { Stepped d.now.bytes.now parent at result }
{
    let Fields {
        low: kind,
        high: value,
    } = fields_at(d.bytes, at);
    // One test for the three literals: with `0..=2` in the `match` LLVM makes a table of jumps, and each literal takes
    // six instructions more.
    if kind < 3 {
        return Ok(None);
    }
    match kind {
        3 if d.slot_named(SlotOffset(value)) => Ok(None),
        4 => match d.number_named(NumberOffset(value)) {
            Ok(_) => Ok(None),
            Err(NoNumber::NotFinite) => refuse(10, at),
            Err(NoNumber::Outside) => refuse(9, at),
        },
        5 if value % 4 == 0 && parent < value => Ok(Some(value)),
        _ => refuse(9, at),
    }
}

// A container's Entries: where they start and how many they are.
#[derive(Clone, Copy)]
struct Entries {
    first: usize,
    count: usize,
}

// Rule 14 at a body of w words, and its marks. `4 ≤ o` stays a bound here and below: a type that says it would be taken
// apart at each use of `o`, and made in two places.
#[inline(always)]
#[tactic(auto, using(crate::proofs::Walks::mark_laws))]
fn mark_body(marks: &mut [u8], o: usize, w: usize) -> Verdict
    requires { (4 ≤ o) × ((o - 4) / 4 + w ≤ length marks.old) × (0 < w) }
    ensures { told_marks result marks.new ≡ mark_body o w marks.old }
{
    let first = (o - 4) / 4;
    if crate::marks::take(&mut marks[first..first + w]) {
        return Ok(());
    }
    refuse(14, o)
}

// Rules 8, 14 and 11 at the container at a place. The document and the marks are no struct here and below: each
// function that takes it would have to say that it keeps its `&mut`, a clause for the bound that goes.
#[tactic(auto, using(crate::proofs::Walks::body_laws))]
fn read_body(d: &Document<'_>, o: usize, marks: &mut [u8]) -> Result<Entries, Refusal>
    requires { (4 ≤ o) × (words d.now.bytes.now ≤ length marks.old) }
    ensures { BodyIs d.now.bytes.now o marks.old marks.new result }
{
    let index = d.areas.index;
    if index < o || index - o < 4 {
        return refuse(8, o);
    }
    let Fields { low: kind, high: n } = fields_at(d.bytes, o);
    match kind {
        0 => read_words(d, o, 0, n, marks),
        1 => read_words(d, o, n, n, marks),
        _ => refuse(8, o),
    }
}

// An array or an object, of so many KeyEntries and n Entries: all its KeyEntries before its Entries.
#[inline(always)]
#[tactic(auto, using(crate::proofs::Walks::words_laws))]
fn read_words(
    d: &Document<'_>,
    o: usize,
    keys: usize,
    n: usize,
    marks: &mut [u8],
) -> Result<Entries, Refusal>
    requires o_value { (o + 4 ≤ d.now.areas.index) × (4 ≤ o) × (words d.now.bytes.now ≤ length marks.old) }
    requires n_value { (n ≡ high d.now.bytes.now o) × (n < 2 ^ 27) }
    requires keys_value { (low d.now.bytes.now o ≤ 1) × (keys ≡ low d.now.bytes.now o * n) }
    ensures { BodyIs d.now.bytes.now o marks.old marks.new result }
{
    let first = o + 4 + 4 * keys;
    if d.areas.index < first + 4 * n {
        return refuse(8, o);
    }
    mark_body(marks, o, 1 + keys + n)?;
    key_entries(d, o + 4, keys)?;
    Ok(Entries { first, count: n })
}

// An Entry of the container at a place, and the subtree below it, with so many levels left under it.
#[cycle(subtree_walk_container)]
#[tactic(auto, using(crate::proofs::Walks::walk_laws))]
fn subtree(d: &Document<'_>, below: usize, parent: usize, at: usize, marks: &mut [u8]) -> Verdict
    requires { (at + 4 ≤ d.now.areas.index) × (4 ≤ parent) × (words d.now.bytes.now ≤ length marks.old) }
    ensures { told_marks result marks.new
        ≡ entry d.now.bytes.now (container below d.now.bytes.now) parent at marks.old }
{
    match read_entry(d, parent, at)? {
        None => Ok(()),
        Some(o) => walk_container(d, below, o, marks),
    }
}

// The container at a place, with so many levels left.
#[cycle(subtree_walk_container)]
#[tactic(auto, using(crate::proofs::Walks::walk_laws))]
fn walk_container(d: &Document<'_>, levels: usize, o: usize, marks: &mut [u8]) -> Verdict
    requires { (4 ≤ o) × (words d.now.bytes.now ≤ length marks.old) }
    ensures { told_marks result marks.new ≡ container levels d.now.bytes.now o marks.old }
{
    if levels == 0 {
        return refuse(12, o);
    }
    let Entries { first, count } = read_body(d, o, marks)?;
    for k in 0..count {
        subtree(d, levels - 1, o, first + 4 * k, marks)?;
    }
    Ok(())
}

// The root container of kind 2, of size n: one Entry, which is no container.
#[tactic(auto, using(crate::proofs::Walks::root_laws))]
fn walk_scalar(d: &Document<'_>, n: usize, marks: &mut [u8]) -> Verdict
    requires { (n ≡ high d.now.bytes.now 4) × (words d.now.bytes.now ≤ length marks.old) }
    ensures { told_marks result marks.new ≡ scalar d.now.bytes.now marks.old }
{
    if n != 1 || d.areas.index < 12 {
        return refuse(8, 4);
    }
    mark_body(marks, 4, 2)?;
    match read_entry(d, 4, 8)? {
        None => Ok(()),
        Some(_) => refuse(9, 8),
    }
}

// The whole tree, from the root container on.
#[tactic(auto, using(crate::proofs::Walks::root_laws))]
pub(crate) fn walk_root(d: &Document<'_>, marks: &mut [u8]) -> Verdict
    requires { words d.now.bytes.now ≤ length marks.old }
    ensures { told_marks result marks.new ≡ root_by d.now.bytes.now (kind_of (low d.now.bytes.now 4)) marks.old }
{
    let Fields { low: kind, high: n } = fields_at(d.bytes, 4);
    if kind == 2 {
        return walk_scalar(d, n, marks);
    }
    walk_container(d, DEEPEST, 4, marks)
}
