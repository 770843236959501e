// The check's walk over a value: depth by calls, with the levels left falling, entries by a loop. Each method answers
// where what it reads ends, and leaves the number of keys passed in `count`. The document is passed by value: lent, its
// place and length would be loaded again for each value.
//
// The lent table, the links and the count are no struct with methods: each contract would have to say besides that it
// holds the same two loans as before.
//
// Whether a container is an object is a `bool`, which a byte of the document says while the check runs. The questions'
// walk (skip.rt of `fractured_json_containers`) goes as this one does, but for its keys and what it keeps. One walk
// over a closure for the key step would be compiled for each all the same, and be no plainer: its contract would have
// to say what the closure leaves in the table.
ghost use Rattle.std.specs.Prelude.{◌≡◌};
ghost use Rattle.fractured_json_rules.specs.Verdict.{in_turn, value as value_by};
ghost use Rattle.fractured_json_values.specs.Opened.{entry as entry_by};
ghost use Rattle.fractured_json_check.specs.Table.{table, key_in, keyed_in, out};

use crate::document::Document;
use fractured_json_values::values::{Open, open_at};
use json_model::{Refusal, refuse};

impl Document<'_> {
    // The value at a place, with so many levels left for containers.
    #[cycle(contents_entry_value)]
    #[tactic(auto, using(crate::proofs::CheckWalk::value_laws))]
    fn value(
        self,
        keys: &mut [u32],
        links: &mut [u16],
        count: &mut usize,
        at: usize,
        levels: usize,
    ) -> Result<usize, Refusal>
        ensures { out result count.new keys.new links.new ≡ value_by (key_in self.entry.bytes.now self.entry.names) levels self.entry.bytes.now at (table count.old keys.old links.old) }
    {
        match open_at(self.bytes, at)? {
            Open::Leaf(past) => Ok(past),
            Open::Container {
                at: first,
                n,
                object,
            } => {
                if levels == 0 {
                    return refuse(41, at);
                }
                self.contents(keys, links, count, first, n, object, levels - 1)
            }
        }
    }

    // `n` entries of an object or array from a place on, with `below` levels left for their values. The root value is
    // the one entry of such an array.
    #[cycle(contents_entry_value)]
    #[tactic(auto, using(crate::proofs::CheckWalk::contents_laws))]
    pub(crate) fn contents(
        self,
        keys: &mut [u32],
        links: &mut [u16],
        count: &mut usize,
        first: usize,
        n: usize,
        object: bool,
        below: usize,
    ) -> Result<usize, Refusal>
        ensures { out result count.new keys.new links.new ≡ in_turn (entry_by object (key_in self.entry.bytes.now self.entry.names) (value_by (key_in self.entry.bytes.now self.entry.names) below self.entry.bytes.now)) n first (table count.old keys.old links.old) }
    {
        let mut at = first;
        for _ in 0..n {
            at = self.entry(keys, links, count, at, object, below)?;
        }
        Ok(at)
    }

    // One entry: a value, in an object after its key.
    #[cycle(contents_entry_value)]
    #[tactic(auto, using(crate::proofs::CheckWalk::entry_laws))]
    fn entry(
        self,
        keys: &mut [u32],
        links: &mut [u16],
        count: &mut usize,
        at: usize,
        object: bool,
        below: usize,
    ) -> Result<usize, Refusal>
        ensures { out result count.new keys.new links.new ≡ entry_by object (key_in self.entry.bytes.now self.entry.names) (value_by (key_in self.entry.bytes.now self.entry.names) below self.entry.bytes.now) at (table count.old keys.old links.old) }
    {
        let start = self.keyed(keys, links, count, at, object)?;
        self.value(keys, links, count, start, below)
    }

    // Where the value of an entry starts: in an object after its key.
    #[tactic(auto, using(crate::proofs::CheckWalk::keyed_laws))]
    fn keyed(
        self,
        keys: &mut [u32],
        links: &mut [u16],
        count: &mut usize,
        at: usize,
        object: bool,
    ) -> Result<usize, Refusal>
        ensures { out result count.new keys.new links.new ≡ keyed_in object self.entry.bytes.now self.entry.names at (table count.old keys.old links.old) }
    {
        if object {
            if self.is_known(*count, at) {
                return Ok(at + 1);
            }
            return self.check_key(keys, links, count, at);
        }
        Ok(at)
    }
}
