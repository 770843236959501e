// The names in one pass: each has its pair, start and length of its text, and its link in the chain of its bucket of
// hashes, by which rule 54 is tested. The words and the links are no struct: each contract would have to say besides
// that it holds the same two loans as before.
ghost use Rattle.std.specs.Prelude.{◌≡◌, ◌+◌, ◌/◌, ◌^◌, ◌≤◌, ◌<◌, min, eqb, length};
ghost use Rattle.json_model.specs.Reading.{ask, need, told};
ghost use Rattle.fractured_json_list.specs.Passing.{name_passed, added, fresh_in, name_in, names_in, told_step, most_names, RoomFor, Placed};

use crate::names::number_at;
use fractured_json_keys::chains::{link, seek};
use fractured_json_keys::pairs::store;
use fractured_json_values::texts::text_of;
use json_model::{Refusal, Verdict, refuse};

// Gives name j its pair, and puts it at the head of the chain of its bucket; the answer is where its text ends.
#[tactic(auto, unfolding(crate::specs::Passing::added))]
fn add_name(
    words: &mut [u32],
    links: &mut [u16],
    j: usize,
    b: usize,
    start: usize,
    len: usize,
) -> usize
    requires { (j < length words.old / 2) × (start < 2 ^ 32) × (len < 2 ^ 32) }
    ensures { name_passed result words.new links.new ≡ added j b start len words.old links.old }
{
    store(words, j, start, len);
    link(links, j, b);
    start + len
}

// Name j, whose length `len` stands at `at` and whose text lies inside the list; the answer is where its text ends.
#[tactic(auto, using(crate::proofs::PassLaws::fresh_laws))]
fn fresh_name(
    list: &[u8],
    words: &mut [u32],
    links: &mut [u16],
    j: usize,
    at: usize,
    len: usize,
) -> Result<usize, Refusal>
    requires { (j < length words.old / 2) × (at + 2 < 2 ^ 32) × (len < 65_536) }
    ensures { told_step result words.new links.new ≡ ask (fresh_in list.now at len j words.old links.old) }
{
    let start = at + 2;
    let Some(b) = seek(list, words, links, j, text_of(list, start, len)) else {
        return refuse(54, at);
    };
    Ok(add_name(words, links, j, b, start, len))
}

// Name j, whose length stands at `at`; the answer is where the next length stands.
#[tactic(auto, using(crate::proofs::PassLaws::name_laws))]
fn pass_name(
    list: &[u8],
    words: &mut [u32],
    links: &mut [u16],
    j: usize,
    at: usize,
) -> Result<usize, Refusal>
    requires { (j < most_names) × Placed list.now j at × (min (j + 1) (length list.now / 2) ≤ length words.old / 2) }
    ensures { told_step result words.new links.new ≡ ask (name_in list.now at j words.old links.old) }
{
    let left = list.len() - at;
    if left < 2 {
        return refuse(52, at);
    }
    let len = number_at(list, at);
    if left - 2 < len {
        return refuse(52, at + 2);
    }
    fresh_name(list, words, links, j, at, len)
}

// The end of the names at `at`, which is the end of the list.
#[tactic(auto, using(crate::proofs::PassLaws::end_laws))]
pub(crate) fn end_at(list: &[u8], at: usize) -> Verdict
    ensures { told result ≡ ask (need (eqb at (length list.now)) 53 at) }
{
    if at == list.len() {
        return Ok(());
    }
    refuse(53, at)
}

// The n names from 3 on, and then the end. There is room for as many names as n says and the list can hold: each takes
// two bytes or more.
#[tactic(auto, using(crate::proofs::PassLaws::names_laws))]
pub(crate) fn pass_names(list: &[u8], n: usize, words: &mut [u32], links: &mut [u16]) -> Verdict
    requires { RoomFor list.now n (length words.old / 2) }
    ensures { told result ≡ ask (names_in list.now n 3 0 words.old links.old) }
{
    let mut at = 3;
    for j in 0..n {
        at = pass_name(list, words, links, j, at)?;
    }
    end_at(list, at)
}
