// The check of a Fractured JSON document with a key list and a lent key table, proved equal to its rule in
// `fractured_json_rules`.
#![tactic(auto)]

pub mod answers;
mod document;
mod keys;
mod start;
mod walk;

ghost use Rattle.std.specs.Prelude.{◌≡◌, []};
ghost use Rattle.fractured_json_rules.specs.Verdict.{document};
ghost use Rattle.fractured_json_rules.specs.KeyTable.{room_of, checked_by, checked};
ghost use Rattle.fractured_json_check.specs.Told.{told_checked};

use answers::Checked;
use document::Document;
use fractured_json_list::check_list;
use fractured_json_list::names::count_of;
use fractured_json_values::header::read_header;
use json_model::{Verdict, refuse};

// The check of the document alone, with a key list of so many names. Down to the walk the number of pairs is a `&mut`
// that begins as 0, and no part of the answer: `?` hands a refusal on, and could not hand on a number beside it.
#[tactic(auto, using(crate::proofs::Checks::document_laws))]
fn check_document(doc: &[u8], names: usize, keys: &mut [u32], count: &mut usize) -> Verdict
    requires { count.old ≡ 0 }
    ensures { told_checked (record { verdict = result; count = count.new }) keys.new ≡ checked_by keys.old (document (room_of keys.old) doc.now names []) }
{
    read_header(doc)?;
    let document = Document { bytes: doc, names };
    let past = document.walk_root(keys, count)?;
    if past == doc.len() {
        return Ok(());
    }
    refuse(42, past)
}

// The check of the key list, and then of the document.
#[tactic(auto, using(crate::proofs::Checks::check_laws))]
fn check_both(doc: &[u8], list: &[u8], keys: &mut [u32], count: &mut usize) -> Verdict
    requires { count.old ≡ 0 }
    ensures { told_checked (record { verdict = result; count = count.new }) keys.new ≡ checked doc.now list.now keys.old }
{
    check_list(list)?;
    check_document(doc, count_of(list), keys, count)
}

// The check of a key list, and then of a document with a lent key table: the verdict, and the number of pairs. Each
// immediate key passed before the end or the refusal has its pair in the table, the start and the length of its text;
// all other words keep what they held.
pub fn check(doc: &[u8], list: &[u8], keys: &mut [u32]) -> Checked
    ensures { told_checked result keys.new ≡ checked doc.now list.now keys.old }
{
    let mut count = 0;
    let verdict = check_both(doc, list, keys, &mut count);
    Checked { verdict, count }
}
