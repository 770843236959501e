// Looking a key up in an object: by halving, with both counts, and by a plain scan. What each does after its opening is
// a function of its own (`.._here`), given the document that is open, for walks that open once.
ghost use Rattle.std.specs.Prelude.{◌≡◌, ℕ, ◌+◌, ◌*◌, ◌≤◌, ◌<◌, length};
ghost use Rattle.json_model.specs.Reading.{ask};
ghost use Rattle.binary_json_rules.specs.Areas.{slot};
ghost use Rattle.binary_json_rules.specs.Halving.{Item, halve};
ghost use Rattle.binary_json_rules.specs.Lookup.{strings, key_item, keys, after_keys, quick_here, quick_lookup, lookup_of, scan_here, plain_scan};
ghost use Rattle.binary_json_lookup.specs.Lookups.{TextMatched, told_item, told_halving, Within, string_items, Compares};
ghost use Rattle.binary_json_answers.specs.Told.{told_scan, told_lookup};

use binary_json_answers::Looked;
use binary_json_areas::areas::part;
use binary_json_areas::asking::open;
use binary_json_areas::document::Document;
use binary_json_areas::offsets::{SlotOffset, TreeOffset};
use binary_json_metas::object::Object;
use binary_json_metas::object_here;
use json_model::{Refusal, refuse};
use std::cmp::Ordering;

// Where a halving found what is sought or missed it, as the standard library's `binary_search` says it, and its number
// of comparisons.
#[derive(Clone, Copy)]
pub struct Halving {
    pub at: Result<usize, usize>,
    pub turns: usize,
}

// Halves n items, by how the item at an index compares with what is sought; nothing where one cannot be read. The loop
// is written out, since std's `binary_search_by` answers no number of comparisons.
fn halve<F: Fn(usize) -> Option<Ordering>>(n: usize, compare: F) -> Option<Halving>
    requires { (k : ℕ) → k < n → F.pre compare k }
    ensures halved { (item : ℕ → Item) → Compares (F.post compare) item n → told_halving result ≡ halve item n }
    ensures within { Within result n }
{
    let mut low = 0;
    let mut high = n;
    let mut turns = 0;
    while low < high {
        let mid = low + (high - low) / 2;
        turns += 1;
        // Two tests and no `match`, of which LLVM makes seven instructions more a turn where numbers are compared; and
        // first the one that goes on, of which it makes a jump, and no value that the next turn has to wait for.
        let order = compare(mid)?;
        if order.is_lt() {
            low = mid + 1;
            continue;
        }
        if order.is_eq() {
            return Some(Halving { at: Ok(mid), turns });
        }
        high = mid;
    }
    Some(Halving {
        at: Err(low),
        turns,
    })
}

// String k against a key; nothing where it is not good to read.
#[tactic(auto, using(crate::proofs::Searches::string_laws))]
fn compare_string(d: &Document<'_>, k: usize, key: &[u8]) -> Option<Ordering>
    requires { k < d.now.areas.count }
    ensures { told_item result ≡ string_items d.now.bytes.now key.now k }
{
    let span = d.read_text(SlotOffset(d.areas.index + 4 + 4 * k))?;
    Some(text::compare(part(d.bytes, span), key))
}

// Halves the strings for a key.
fn find_string(d: &Document<'_>, key: &[u8]) -> Option<Halving>
    ensures { (told_halving result ≡ strings d.now.bytes.now key.now) × Within result d.now.areas.count }
{
    halve(d.areas.count, |k| compare_string(d, k, key))
}

// Halves the KeyEntries of an object for the offset of string k's slot, as numbers.
fn find_key(o: &Object<'_>, k: usize) -> Option<Halving>
    requires { k < o.now.document.areas.count }
    ensures { (told_halving result ≡ keys o.now.document.bytes.now o.now.place o.now.size (slot o.now.document.bytes.now k)) × Within result o.now.size }
{
    let sought = o.document.areas.index + 4 + 4 * k;
    halve(o.size, |j| Some(o.key(j).0.cmp(&sought)))
}

// After string k was found, with so many comparisons: its slot among the KeyEntries.
#[tactic(auto, using(crate::proofs::Searches::look_key_laws))]
fn look_key(o: &Object<'_>, k: usize, first: usize) -> Result<Looked, Refusal>
    requires { k < o.now.document.areas.count }
    ensures { told_lookup result ≡ lookup_of (ask (after_keys o.now.place o.now.size first (keys o.now.document.bytes.now o.now.place o.now.size (slot o.now.document.bytes.now k)))) }
{
    let Some(Halving { at, turns }) = find_key(o, k) else {
        return refuse(20, o.place);
    };
    let entry = match at {
        Ok(j) => Some(o.entry(j)),
        Err(_) => None,
    };
    Ok(Looked {
        entry,
        first,
        second: turns,
    })
}

// The quick lookup in an object.
#[tactic(auto, using(crate::proofs::Searches::look_laws))]
fn look(o: &Object<'_>, key: &[u8]) -> Result<Looked, Refusal>
    ensures { told_lookup result ≡ lookup_of (ask (quick_here o.now.document.bytes.now o.now.place key.now)) }
{
    match find_string(&o.document, key) {
        Some(Halving { at: Ok(k), turns }) => look_key(o, k, turns),
        Some(Halving { at: Err(_), turns }) => Ok(Looked {
            entry: None,
            first: turns,
            second: 0,
        }),
        None => refuse(20, o.place),
    }
}

// The quick lookup after the opening.
#[tactic(auto, using(crate::proofs::Searches::quick_here_laws))]
pub fn quick_here(d: &Document<'_>, cursor: TreeOffset, key: &[u8]) -> Result<Looked, Refusal>
    ensures { told_lookup result ≡ lookup_of (ask (quick_here d.now.bytes.now cursor.0 key.now)) }
{
    look(&object_here(d, cursor)?, key)
}

// The quick lookup: the Entry of the member with a key, or absent, with the comparisons of both halvings; a refusal has
// 0 and 0.
#[tactic(auto, using(crate::proofs::Searches::quick_lookup_laws))]
pub fn quick_lookup(doc: &[u8], cursor: TreeOffset, key: &[u8]) -> Result<Looked, Refusal>
    ensures { told_lookup result ≡ lookup_of (ask (quick_lookup doc.now cursor.0 key.now)) }
{
    quick_here(&open(doc, cursor.0)?, cursor, key)
}

// Whether the text that an offset names is a key; nothing where it is not good to read. A function of its own, so that
// `?` serves.
fn match_text(d: &Document<'_>, at: SlotOffset, key: &[u8]) -> Option<bool>
    ensures { TextMatched d.now.bytes.now at.0 key.now result }
{
    let span = d.text_named(at)?;
    Some(text::same(part(d.bytes, span), key))
}

// The plain scan of an object.
#[tactic(auto, using(crate::proofs::Searches::scan_laws))]
fn scan(o: &Object<'_>, key: &[u8]) -> Result<Option<TreeOffset>, Refusal>
    ensures { told_scan result ≡ ask (scan_here o.now.document.bytes.now o.now.place key.now) }
{
    for j in 0..o.size {
        match match_text(&o.document, o.key(j), key) {
            Some(true) => return Ok(Some(o.entry(j))),
            Some(false) => {}
            None => return refuse(20, o.place),
        }
    }
    Ok(None)
}

// The plain scan after the opening.
#[tactic(auto, using(crate::proofs::Searches::scan_here_laws))]
pub fn scan_here(
    d: &Document<'_>,
    cursor: TreeOffset,
    key: &[u8],
) -> Result<Option<TreeOffset>, Refusal>
    ensures { told_scan result ≡ ask (scan_here d.now.bytes.now cursor.0 key.now) }
{
    scan(&object_here(d, cursor)?, key)
}

// The plain scan: the Entry of the first member with a key, or absent.
#[tactic(auto, using(crate::proofs::Searches::plain_scan_laws))]
pub fn plain_scan(doc: &[u8], cursor: TreeOffset, key: &[u8]) -> Result<Option<TreeOffset>, Refusal>
    ensures { told_scan result ≡ ask (plain_scan doc.now cursor.0 key.now) }
{
    scan_here(&open(doc, cursor.0)?, cursor, key)
}
