// A key as the check reads it: an immediate key has its pair in the lent table, and its number, before its value is
// read. Each function but `is_known` answers where the value starts, and leaves the number of keys passed in `count`.
// The table, the links and the count are no struct here either: walk.rt says why.
ghost use Rattle.std.specs.Prelude.{◌≡◌, ◌+◌, ◌^◌, ◌≤◌, ◌<◌, length};
ghost use Rattle.fractured_json_rules.specs.Verdict.{numeral, listed_key};
ghost use Rattle.fractured_json_values.specs.Heads.{numbered_by};
ghost use Rattle.fractured_json_check.specs.Known.{Known};
ghost use Rattle.fractured_json_check.specs.Table.{table, fresh_key_in, new_key_in, old_key_in, key_in, out};

use crate::document::Document;
use fractured_json_keys::chains::{link, seek};
use fractured_json_keys::pairs::store;
use fractured_json_values::key_number::key_number_at;
use fractured_json_values::texts::{room_of, text_of};
use fractured_json_values::types::{KeyHead, KeyKind, key_head};
use fractured_json_values::values::{Numeral, byte_at};
use json_model::{Refusal, refuse};

// An immediate key whose text of `n.number` bytes at `n.past` is fresh and falls into the bucket `b`: once passed, it
// has its pair, its link and its number.
#[tactic(auto, using(crate::proofs::CheckedKeys::fresh_laws))]
fn fresh_key(
    keys: &mut [u32],
    links: &mut [u16],
    count: &mut usize,
    at: usize,
    b: usize,
    n: Numeral,
) -> Result<usize, Refusal>
    requires { n.past + n.number < 2 ^ 32 }
    ensures { out result count.new keys.new links.new ≡ fresh_key_in b at (numeral n.number n.past) (table count.old keys.old links.old) }
{
    let Numeral { number, past } = n;
    if room_of(keys) <= *count {
        return refuse(40, at);
    }
    store(keys, *count, past, number);
    link(links, *count, b);
    *count += 1;
    Ok(past + number)
}

impl Document<'_> {
    // An immediate key, whose text of `n.number` bytes starts at `n.past`.
    #[tactic(auto, using(crate::proofs::CheckedKeys::new_laws))]
    fn new_key(
        self,
        keys: &mut [u32],
        links: &mut [u16],
        count: &mut usize,
        at: usize,
        n: Numeral,
    ) -> Result<usize, Refusal>
        requires { n.past ≤ length self.bytes.now }
        ensures { out result count.new keys.new links.new ≡ new_key_in self.entry.bytes.now at (numeral n.number n.past) (table count.old keys.old links.old) }
    {
        let doc = self.bytes;
        if doc.len() - n.past < n.number {
            return refuse(35, at);
        }
        let Some(b) = seek(doc, keys, links, *count, text_of(doc, n.past, n.number)) else {
            return refuse(39, at);
        };
        fresh_key(keys, links, count, at, b, n)
    }

    // A key by its kind, once the number that it carries has been read.
    #[tactic(auto, using(crate::proofs::CheckedKeys::numbered_laws))]
    fn numbered(
        self,
        keys: &mut [u32],
        links: &mut [u16],
        count: &mut usize,
        at: usize,
        kind: KeyKind,
        n: Numeral,
    ) -> Result<usize, Refusal>
        requires { n.past ≤ length self.bytes.now }
        ensures { out result count.new keys.new links.new ≡ numbered_by (new_key_in self.entry.bytes.now at) (old_key_in at) (listed_key self.entry.names at) kind (numeral n.number n.past) (table count.old keys.old links.old) }
    {
        match kind {
            KeyKind::Immediate => self.new_key(keys, links, count, at, n),
            KeyKind::Back if n.number < *count => Ok(n.past),
            KeyKind::Global if n.number < self.names => Ok(n.past),
            _ => refuse(38, at),
        }
    }

    // The key at a place.
    #[tactic(auto, using(crate::proofs::CheckedKeys::check_key_laws))]
    pub(crate) fn check_key(
        self,
        keys: &mut [u32],
        links: &mut [u16],
        count: &mut usize,
        at: usize,
    ) -> Result<usize, Refusal>
        ensures { out result count.new keys.new links.new ≡ key_in self.entry.bytes.now self.entry.names at (table count.old keys.old links.old) }
    {
        let doc = self.bytes;
        let Some(KeyHead { kind, number }) = key_head(byte_at(doc, at)?) else {
            return refuse(36, at);
        };
        let n = key_number_at(doc, at, number)?;
        self.numbered(keys, links, count, at, kind, n)
    }

    // Whether the key at a place is a back reference or a global index in one byte that is found: the most frequent
    // keys, told by a branch of their own and not by an answer in memory (docs/DECISIONS.md, "Answers that meet in
    // memory").
    #[tactic(auto, using(crate::proofs::CheckedKeys::known_laws))]
    pub(crate) fn is_known(self, count: usize, at: usize) -> bool
        ensures { Known self.entry.bytes.now self.entry.names count at result }
    {
        let Ok(b) = byte_at(self.bytes, at) else {
            return false;
        };
        let Some(KeyHead { kind, number }) = key_head(b) else {
            return false;
        };
        match (kind, number) {
            (KeyKind::Back, Some(number)) => number < count,
            (KeyKind::Global, Some(number)) => number < self.names,
            _ => false,
        }
    }
}
