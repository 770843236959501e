// The BinaryJson check: refusals 1 to 15 with their places, in one pass, with a mark lent for each word of the tree.
// Containers are walked by calls, with the levels left falling; slots, KeyEntries and Entries by loops.
#![tactic(auto)]

mod marks;
mod strings;
mod walk;

ghost use Rattle.std.specs.Prelude.{◌≡◌, length, ◌-◌, ◌/◌, ◌≤◌};
ghost use Rattle.binary_json_check.specs.Told.{told_marks};
ghost use Rattle.binary_json_check.specs.Walks.{walk_all};
ghost use Rattle.binary_json_rules.specs.Verdict.{verdict};
ghost use Rattle.binary_json_areas.specs.Laid.{Indexes};

use binary_json_areas::areas::{Areas, read_header};
use binary_json_areas::document::Document;
use binary_json_areas::header::Header;
use json_model::{Verdict, refuse};

// The walk over the tree's words, and rule 13.
#[tactic(auto, using(crate::proofs::Checks::all_laws))]
fn walk_all(d: &Document<'_>, words: usize, marks: &mut [u8]) -> Verdict
    requires { (words ≡ (d.now.areas.index - 4) / 4) × (words ≤ length marks.old) }
    ensures { told_marks result marks.new ≡ walk_all d.now.bytes.now marks.old }
{
    walk::walk_root(d, marks)?;
    match marks::first_unmarked(&marks[..words]) {
        None => Ok(()),
        Some(k) => refuse(13, 4 + 4 * k),
    }
}

// The rules from 7 on, of a document whose string index is good.
#[tactic(auto, using(crate::proofs::Checks::tree_laws))]
fn check_tree(d: &Document<'_>, marks: &mut [u8]) -> Verdict
    requires { Indexes d.now.bytes.now d.now.areas }
    ensures { told_marks result marks.new ≡ verdict d.now.bytes.now marks.old }
{
    let Areas { index, numbers, .. } = d.areas;
    let step = (d.bytes.len() - numbers) % 8;
    if step != 0 {
        return refuse(7, numbers);
    }
    let words = (index - 4) / 4;
    if marks.len() < words {
        return refuse(15, index);
    }
    marks::set_marks(&mut marks[..words], 0);
    walk_all(d, words, marks)
}

// The check: refusals 1 to 15 with their places, in one pass.
#[tactic(auto, using(crate::proofs::Checks::check_laws))]
pub fn check(doc: &[u8], marks: &mut [u8]) -> Verdict
    ensures { told_marks result marks.new ≡ verdict doc.now marks.old }
{
    let header = read_header(doc)?;
    let numbers = strings::read_slots(&header)?;
    let Header { index, count, .. } = header;
    let areas = Areas {
        index,
        count,
        numbers,
    };
    check_tree(&Document { bytes: doc, areas }, marks)
}
