// Chains of keys whose texts fall into one bucket. Half of the links are for buckets, each with the last key passed of
// its bucket, the other half for keys, each with the key before it in its bucket. No map: the readers have no heap.
ghost use Rattle.std.specs.Prelude.{◌≡◌, ◌*◌, ◌^◌, ◌≤◌, ◌<◌, length, get_or};
ghost use Rattle.fractured_json_keys.specs.Chains.{most_links, buckets_in, followed, sought_in, linked_in};

use crate::pairs::scan;
use fractured_json_values::texts::{pairs_in, text_of};
use text::same;

// The most keys that are chained: a link has 16 bits, and is one more than the number of its key.
const MOST_LINKS: usize = 65535;

// How many buckets there are links for.
#[tactic(auto, unfolding(crate::specs::Chains::buckets_in))]
fn buckets(links: &[u16]) -> usize
    ensures { (result ≡ buckets_in links.now) × (2 * result ≤ length links.now) × (result ≤ most_links) }
{
    pairs_in(links, MOST_LINKS)
}

// The link at a place, and the word at a place of the table; 0 past the end. They are two: of a type that is
// `Into<u64>` the contract would say `into` of an element, where `followed` says `get_or`.
fn link_at(links: &[u16], i: usize) -> usize
    ensures { (result ≡ get_or links.now i 0) × (result < 2 ^ 16) }
{
    links.get(i).map_or(0, |link| *link as usize)
}

fn word_at(keys: &[u32], i: usize) -> usize
    ensures { (result ≡ get_or keys.now i 0) × (result < 2 ^ 32) }
{
    keys.get(i).map_or(0, |word| *word as usize)
}

// The document, the table and the links are no struct with `follow` and `seek` as its methods: check and list hold the
// table and the links by `&mut`, and would make one anew for each call.
//
// Whether a text is that of a key on the chain that starts with a link; `n` is the number of buckets. 0 ends a chain,
// and is what is read past the links too: an `Option` would say it twice.
#[tactic(auto, using(crate::proofs::ChainLaws::follow_laws))]
fn follow(doc: &[u8], keys: &[u32], links: &[u16], n: usize, first: usize, t: &[u8]) -> bool
    requires { (n ≡ buckets_in links.now) × (n ≤ most_links) × (first < 2 ^ 16) }
    ensures { result ≡ followed doc.now t.now keys.now links.now (buckets_in links.now) first }
{
    let mut next = first;
    for _ in 0..n {
        if next == 0 {
            return false;
        }
        let j = next - 1;
        let start = word_at(keys, 2 * j);
        let len = word_at(keys, 2 * j + 1);
        if same(text_of(doc, start, len), t) {
            return true;
        }
        next = link_at(links, n + j);
    }
    false
}

// The test of rules 39 and 54: none where a text is one of those in the table's first `count` pairs, and else the
// bucket that it falls into.
#[tactic(auto, using(crate::proofs::ChainLaws::seek_laws))]
pub fn seek(doc: &[u8], keys: &[u32], links: &[u16], count: usize, t: &[u8]) -> Option<usize>
    ensures { result ≡ sought_in doc.now t.now keys.now links.now count }
{
    let n = buckets(links);
    let b = text::hash::hash_of(t) as usize * n / 4294967296;
    if count < n {
        let first = links[b] as usize;
        if follow(doc, keys, links, n, first, t) {
            return None;
        }
        return Some(b);
    }
    if scan(doc, keys, count, t) {
        return None;
    }
    Some(b)
}

// Puts key `count` at the head of the chain of its bucket.
#[tactic(auto, using(crate::proofs::ChainLaws::link_laws))]
pub fn link(links: &mut [u16], count: usize, b: usize)
    ensures { links.new ≡ linked_in links.old count b }
{
    let n = buckets(links);
    if count < n && b < n {
        links[n + count] = links[b];
        links[b] = (count + 1) as u16;
    }
}
