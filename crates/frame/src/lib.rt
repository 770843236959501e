// One line of the bench: what its characters stand for, which format, the verdict, and the text of the answer.
#![tactic(auto)]

mod hex;
mod texts;

ghost use Rattle.std.specs.Prelude.{◌≡◌, ◌*◌, length, replicate};
ghost use Rattle.json_model.specs.Limits.{bench_marks, bench_keys};
ghost use Rattle.json_model.specs.Reading.{told, verdict_of};
ghost use Rattle.fractured_json_rules.specs.KeyList.{no_names};
ghost use Rattle.binary_json_rules.specs.Verdict.{verdict as binaryVerdict};
ghost use Rattle.fractured_json_rules.specs.Verdict.{verdict};
ghost use Rattle.frame_rules.specs.Frame.{is_fractured, frame_of, answer_of};
ghost use Rattle.frame.specs.Told.{told_answer};

use json_model::Verdict;
use json_model::limits::{BENCH_KEYS, BENCH_MARKS, LONGEST_LINE};
pub use texts::{text, total};

// The most bytes of a frame, and the words of the key table.
const BYTES: usize = LONGEST_LINE / 2;

const WORDS: usize = 2 * BENCH_KEYS;

// The answer of a line: too long, not hexadecimal, or the verdict of its frame.
#[derive(Drop)]
pub enum Answer {
    Long,
    Hex,
    Binary(Verdict),
    Fractured(Verdict),
}

// Whether a frame starts as Fractured JSON does.
#[tactic(auto, using(crate::proofs::Frames::format_laws))]
fn is_fractured(doc: &[u8]) -> bool
    ensures { result ≡ is_fractured doc.now }
{
    doc.starts_with(b"FJ")
}

// Room for the keys of a frame.
fn key_table() -> [u32; WORDS]
    ensures { 2 * bench_keys ≡ length result }
{
    [0; WORDS]
}

#[tactic(auto, using(crate::proofs::Frames::frame_laws))]
fn check_fractured(doc: &[u8]) -> Verdict
    ensures { told result ≡ verdict_of (verdict bench_keys doc.now no_names) }
{
    // A key list without a name; also in `rulings` and `limits`: a constant of a reader's crate would be no plainer.
    let names = [0u8; 3];
    let mut keys = key_table();
    let c = fractured_json_check::check(doc, &names, &mut keys);
    c.verdict
}

// A mark for each word that the tree of a frame can have.
fn marks() -> [u8; BENCH_MARKS]
    ensures { result ≡ replicate bench_marks 0 }
{
    [0; BENCH_MARKS]
}

#[tactic(auto, using(crate::proofs::Frames::frame_laws))]
fn check_binary(doc: &[u8]) -> Verdict
    ensures { told result ≡ verdict_of (binaryVerdict doc.now (replicate bench_marks 0)) }
{
    let mut lent = marks();
    binary_json_check::check(doc, &mut lent)
}

#[tactic(auto, using(crate::proofs::Frames::frame_laws))]
fn check_frame(doc: &[u8]) -> Answer
    ensures { told_answer result ≡ frame_of doc.now }
{
    if is_fractured(doc) {
        return Answer::Fractured(check_fractured(doc));
    }
    Answer::Binary(check_binary(doc))
}

// The answer of a line, without its LF.
#[tactic(auto, using(crate::proofs::Frames::frame_laws))]
pub fn answer_to(line: &[u8]) -> Answer
    ensures { told_answer result ≡ answer_of line.now }
{
    if LONGEST_LINE < line.len() {
        return Answer::Long;
    }
    let mut bytes = [0u8; BYTES];
    if hex::decode(line, &mut bytes) {
        return check_frame(&bytes[..line.len() / 2]);
    }
    Answer::Hex
}
