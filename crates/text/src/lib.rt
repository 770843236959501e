// How two texts stand to each other, and a hash of a text.
#![tactic(auto)]

pub mod hash;

ghost use Rattle.std.specs.Prelude.{◌≡◌, ◌+◌, ◌≤◌, ◌<◌, min, eqb, length};
ghost use Rattle.json_model.specs.Bytes.{number};
ghost use Rattle.json_model.specs.Texts.{compare_texts, is_equal};
ghost use Rattle.text.specs.Steps.{compare_steps};
ghost use Rattle.text.specs.Swapped.{swapped};
ghost use Rattle.text.specs.Comparing.{ComparesFrom, Passed};

use std::cmp::Ordering;

// The order of two texts, and in how many steps it was found.
#[derive(Clone, Copy)]
pub struct Comparison {
    pub order: Ordering,
    pub steps: usize,
}

// Whether the eight bytes at a place are the same in both texts.
#[inline(always)]
#[tactic(auto, using(crate::proofs::Laws::eights_laws))]
fn same_eight(a: &[u8], b: &[u8], i: usize) -> bool
    requires { (i + 8 ≤ length a.now) × (i + 8 ≤ length b.now) }
    ensures { result ≡ eqb (number a.now i 8) (number b.now i 8) }
{
    word::eight(&a[i..]) == word::eight(&b[i..])
}

// Passes the steps of eight bytes that do not differ: up to one that does, or to where fewer than eight bytes are left
// in one text. Not by `chunks_exact` and `zip`: `same` then takes an eighth more instructions on texts shorter than
// eight bytes.
#[inline(always)]
#[tactic(auto, using(crate::proofs::Laws::eights_laws))]
fn pass_equal(a: &[u8], b: &[u8]) -> usize
    ensures { (result ≤ min (length a.now) (length b.now)) × Passed a.now b.now result }
{
    let n = a.len().min(b.len());
    for k in 0..n / 8 {
        let i = 8 * k;
        if !same_eight(a, b, i) {
            return i;
        }
    }
    n - n % 8
}

// The eight bytes at a place as a number, the first the highest.
#[inline(always)]
#[tactic(auto, using(crate::proofs::Laws::swapped_laws))]
fn swapped_eight(t: &[u8], i: usize) -> u64
    requires { i + 8 ≤ length t.now }
    ensures { result ≡ swapped 8 (number t.now i 8) }
{
    word::eight(&t[i..]).swap_bytes()
}

// The order of two texts whose eight bytes at a place differ: as numbers these are little endian, so their bytes are
// swapped. Not by `cmp`, which asks once more whether they are equal: two instructions of thirty in `compare`.
#[inline(always)]
#[tactic(auto, using(crate::proofs::Laws::eights_laws))]
fn differ(a: &[u8], b: &[u8], i: usize) -> Ordering
    requires { (i + 8 ≤ length a.now) × (i + 8 ≤ length b.now) × Passed a.now b.now i }
    ensures { result ≡ compare_texts a.now b.now }
{
    let x = swapped_eight(a, i);
    let y = swapped_eight(b, i);
    if x < y {
        return Ordering::Less;
    }
    Ordering::Greater
}

// The rest from a place on, with fewer than eight bytes left in one text: one byte at a step. Not by `zip`: `same` then
// takes up to a quarter more instructions on texts shorter than eight bytes.
#[inline(always)]
#[tactic(auto, using(crate::proofs::Laws::bytes_laws))]
fn compare_rest(a: &[u8], b: &[u8], at: usize, before: usize) -> Comparison
    requires at_bound { (at ≤ min (length a.now) (length b.now)) × (min (length a.now) (length b.now) < at + 8) }
    requires before_le_at { (before ≤ at) × ComparesFrom a.now b.now at before }
    ensures { (result.order ≡ compare_texts a.now b.now) × (result.steps ≡ compare_steps a.now b.now) }
{
    let mut steps = before;
    for i in at..a.len().min(b.len()) {
        steps += 1;
        let x = a[i];
        let y = b[i];
        if x != y {
            return Comparison {
                order: x.cmp(&y),
                steps,
            };
        }
    }
    Comparison {
        order: a.len().cmp(&b.len()),
        steps,
    }
}

// The first text against the second, with the number of steps: eight bytes at a step where eight are left in both, else
// one while both have one, through the first step that differs.
#[inline(always)]
#[tactic(auto, using(crate::proofs::Laws::eights_laws))]
pub fn compare_with_steps(a: &[u8], b: &[u8]) -> Comparison
    ensures { (result.order ≡ compare_texts a.now b.now) × (result.steps ≡ compare_steps a.now b.now) }
{
    let i = pass_equal(a, b);
    let steps = i / 8;
    if 8 <= a.len().min(b.len()) - i {
        let order = differ(a, b, i);
        return Comparison {
            order,
            steps: steps + 1,
        };
    }
    compare_rest(a, b, i, steps)
}

// The first text against the second, as unsigned bytes; a prefix is below the longer. Not by the `cmp` of slices: 1.5
// times the time on keys of 8 or 16 bytes that share their first 6 or 12, 1.7 on such of 64 that share 62.
#[inline(always)]
pub fn compare(a: &[u8], b: &[u8]) -> Ordering
    ensures { result ≡ compare_texts a.now b.now }
{
    let c = compare_with_steps(a, b);
    c.order
}

// Whether two texts are the same. Texts of unlike lengths are told without a look at their bytes. Not by `==`: 2.9, 1.7
// and 1.2 times the time on keys of 8, 16 and 32 bytes that share all but their last 2, 4 and 8, though 0.7 at 64.
#[inline(always)]
#[tactic(auto, using(crate::proofs::Laws::same_laws))]
pub fn same(a: &[u8], b: &[u8]) -> bool
    ensures { result ≡ is_equal (compare_texts a.now b.now) }
{
    if a.len() != b.len() {
        return false;
    }
    compare(a, b).is_eq()
}
