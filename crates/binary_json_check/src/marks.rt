// The lent marks, one byte for each word of the tree. A body is the part of them that stands for its words. It is
// taken: its marks are tested, and set if none of them is. Most bodies are short: for up to sixteen words two loads and
// two stores do, from both ends, which may overlap. Longer ones are tested eight at a step, and set by a loop that
// compiles to `memset`; std's `fill` would clone mark by mark.
ghost use Rattle.std.specs.Prelude.{◌≡◌, ◌*◌, ◌≤◌, ◌<◌, length};
ghost use Rattle.binary_json_rules.specs.Marks.{clear, fill};
ghost use Rattle.binary_json_check.specs.Taken.{Taken, Found};

// Whether all marks of a body are 0, by S of them from either end.
#[tactic(auto, using(crate::proofs::MarkLaws::ends_laws))]
fn ends_clear<const S: usize>(body: &[u8]) -> bool
    requires { (S ≤ 8) × (S ≤ length body.now) × (length body.now ≤ 2 * S) }
    ensures { result ≡ clear body.now 0 (length body.now) }
{
    let first = word::integer(body, 0, S);
    if first != 0 {
        return false;
    }
    let last = word::integer(body, body.len() - S, S);
    last == 0
}

// Sets the first N marks: one store, wherever this is inlined and N is small.
#[tactic(auto, using(crate::proofs::MarkLaws::loop_laws))]
fn set<const N: usize>(part: &mut [u8])
    requires { N ≤ length part.old }
    ensures { part.new ≡ fill part.old 0 N 1 }
{
    for i in 0..N {
        part[i] = 1;
    }
}

// Takes a body of S to 2 * S words.
#[tactic(auto, using(crate::proofs::MarkLaws::take_laws))]
fn take_ends<const S: usize>(body: &mut [u8]) -> bool
    requires { (S ≤ 8) × (S ≤ length body.old) × (length body.old ≤ 2 * S) }
    ensures { Taken body.old result body.new }
{
    let free = ends_clear::<S>(body);
    if free {
        set::<S>(body);
        let last = body.len() - S;
        set::<S>(&mut body[last..]);
        return true;
    }
    false
}

// Whether all marks of a body are 0: eight at a step, and then the last eight.
#[tactic(auto, using(crate::proofs::MarkLaws::many_laws))]
fn many_clear(body: &[u8]) -> bool
    requires { 8 ≤ length body.now }
    ensures { result ≡ clear body.now 0 (length body.now) }
{
    for i in 0..body.len() / 8 {
        let eight = word::integer(body, 8 * i, 8);
        if eight != 0 {
            return false;
        }
    }
    let last = word::integer(body, body.len() - 8, 8);
    last == 0
}

// Sets all marks of a part to a value.
#[tactic(auto, using(crate::proofs::MarkLaws::loop_laws))]
pub(crate) fn set_marks(part: &mut [u8], value: u8)
    ensures { part.new ≡ fill part.old 0 (length part.old) value }
{
    for mark in part.iter_mut() {
        *mark = value;
    }
}

// A body of more than sixteen words, and one of one word.
#[tactic(auto, using(crate::proofs::MarkLaws::take_laws))]
fn take_many(body: &mut [u8]) -> bool
    requires { 8 ≤ length body.old }
    ensures { Taken body.old result body.new }
{
    let free = many_clear(body);
    if free {
        set_marks(body, 1);
        return true;
    }
    false
}

#[tactic(auto, using(crate::proofs::MarkLaws::take_laws))]
fn take_one(body: &mut [u8]) -> bool
    requires { length body.old ≡ 1 }
    ensures { Taken body.old result body.new }
{
    let mark = body[0];
    if mark != 0 {
        return false;
    }
    body[0] = 1;
    true
}

// Takes a body: whether none of its words was marked, and then they are.
#[tactic(auto, using(crate::proofs::MarkLaws::take_laws))]
pub(crate) fn take(body: &mut [u8]) -> bool
    requires { 0 < length body.old }
    ensures { Taken body.old result body.new }
{
    let n = body.len();
    if 16 < n {
        return take_many(body);
    }
    if 8 < n {
        return take_ends::<8>(body);
    }
    if 4 < n {
        return take_ends::<4>(body);
    }
    if 1 < n {
        return take_ends::<2>(body);
    }
    take_one(body)
}

// What eight marks read together that are 1 each.
const EIGHT_MARKED: u64 = 0x0101010101010101;

// The first word whose mark is 0: eight marks at a step, where `position` takes one.
#[tactic(auto, using(crate::proofs::MarkLaws::loop_laws))]
pub(crate) fn first_unmarked(words: &[u8]) -> Option<usize>
    ensures { Found words.now 0 result }
{
    let n = words.len();
    for i in 0..n / 8 {
        let x = word::integer(words, 8 * i, 8);
        if x != EIGHT_MARKED {
            return first_unmarked_by_one(words, 8 * i);
        }
    }
    first_unmarked_by_one(words, 8 * (n / 8))
}

// The same of the words from k on, one mark at a step.
#[tactic(auto, using(crate::proofs::MarkLaws::loop_laws))]
fn first_unmarked_by_one(words: &[u8], k: usize) -> Option<usize>
    requires { k ≤ length words.now }
    ensures { Found words.now k result }
{
    let found = words[k..].iter().position(|mark| *mark == 0)?;
    Some(k + found)
}
