// The bench's output lines, written over the start of a lent text. By hand and not by `write!`: there a part that does
// not fit fails, and these same bounds would have to rule that out. `text` and `total` keep their form, which claims
// and frames call.
ghost use Rattle.std.specs.Prelude.{◌≡◌, ◌+◌, ◌≤◌, length, ◌++◌, take, drop};
ghost use Rattle.json_model.specs.Reading.{told};
ghost use Rattle.frame_rules.specs.Texts.{decimal, verdict_text, said, answer_text, total_text};
ghost use Rattle.frame.specs.Told.{told_answer};
ghost use Rattle.frame.specs.Written.{Written};

use crate::Answer;
use json_model::Verdict;

// Copies a text to a place.
fn copy(out: &mut [u8], at: usize, text: &[u8])
    requires { at + length text.now ≤ length out.old }
    ensures { out.new ≡ take at out.old ++ text.now ++ drop (at + length text.now) out.old }
{
    out[at..at + text.len()].copy_from_slice(text);
}

// Writes a text at a place, and answers where it ends.
#[tactic(auto, using(crate::proofs::TextLaws::put_laws))]
fn put(out: &mut [u8], at: usize, text: &[u8]) -> usize
    requires { at + length text.now ≤ length out.old }
    ensures written { Written out.old at text.now out.new result }
    ensures value { result ≡ at + length text.now }
{
    copy(out, at, text);
    at + text.len()
}

// Writes a number in decimal digits.
#[tactic(auto, using(crate::proofs::TextLaws::decimal_laws))]
fn put_decimal(out: &mut [u8], at: usize, n: u64) -> usize
    requires { at + 20 ≤ length out.old }
    ensures written { Written out.old at (decimal n) out.new result }
    ensures upper_bound { result ≤ at + 20 }
{
    let mut digits = itoa::Buffer::new();
    put(out, at, digits.format(n).as_bytes())
}

// Writes a text and then a number.
#[tactic(auto, using(crate::proofs::TextLaws::line_laws))]
fn put_number(out: &mut [u8], at: usize, text: &[u8], n: u64) -> usize
    requires { at + length text.now + 20 ≤ length out.old }
    ensures written { Written out.old at (text.now ++ decimal n) out.new result }
    ensures upper_bound { result ≤ at + length text.now + 20 }
{
    let p = put(out, at, text);
    put_decimal(out, p, n)
}

#[tactic(auto, using(crate::proofs::TextLaws::line_laws))]
fn put_verdict(out: &mut [u8], at: usize, verdict: Verdict) -> usize
    requires { at + 46 ≤ length out.old }
    ensures written { Written out.old at (verdict_text (told verdict)) out.new result }
    ensures upper_bound { result ≤ at + 46 }
{
    match verdict {
        Ok(()) => put(out, at, b" ok\n"),
        Err(r) => {
            let number = put_number(out, at, b" no ", u64::from(r.number));
            let place = put_number(out, number, b" ", r.place as u64);
            put(out, place, b"\n")
        }
    }
}

#[tactic(auto, using(crate::proofs::TextLaws::line_laws))]
fn put_answer(out: &mut [u8], at: usize, answer: Answer) -> usize
    requires { at + 48 ≤ length out.old }
    ensures written { Written out.old at (said (told_answer answer)) out.new result }
    ensures upper_bound { result ≤ at + 48 }
{
    match answer {
        Answer::Long => put(out, at, b" long\n"),
        Answer::Hex => put(out, at, b" hex\n"),
        Answer::Binary(v) => {
            let letter = put(out, at, b" B");
            put_verdict(out, letter, v)
        }
        Answer::Fractured(v) => {
            let letter = put(out, at, b" F");
            put_verdict(out, letter, v)
        }
    }
}

// The line of an answer, with its number: written over the start of `out`, and its length answered.
#[tactic(auto, using(crate::proofs::TextLaws::line_laws))]
pub fn text(number: u64, answer: Answer, out: &mut [u8; 80]) -> usize
    ensures written { Written out.old 0 (answer_text number (told_answer answer)) out.new result }
    ensures upper_bound { result ≤ length out.new }
{
    let at = put_decimal(out, 0, number);
    put_answer(out, at, answer)
}

// The last line: how many frames there were, and how many of them were accepted.
#[tactic(auto, using(crate::proofs::TextLaws::line_laws))]
pub fn total(frames: u64, ok: u64, out: &mut [u8; 80]) -> usize
    ensures written { Written out.old 0 (total_text frames ok) out.new result }
    ensures upper_bound { result ≤ length out.new }
{
    let many = put_number(out, 0, b"total ", frames);
    let end = put_number(out, many, b" ok ", ok);
    put(out, end, b"\n")
}
