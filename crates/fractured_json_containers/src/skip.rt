// The questions' walk over a value: keys go by a key list, a table and a count as they are handed in. It is apart from
// the check's, of which walk.rt of `fractured_json_check` says why, and has the same `bool` for an object.
ghost use Rattle.std.specs.Prelude.{◌≡◌, ◌≤◌, length};
ghost use Rattle.json_model.specs.Reading.{ask};
ghost use Rattle.fractured_json_rules.specs.Verdict.{numeral, in_turn};
ghost use Rattle.fractured_json_rules.specs.Questions.{text_key, back_key, name_key};
ghost use Rattle.fractured_json_values.specs.Heads.{numbered_by};
ghost use Rattle.fractured_json_values.specs.Opened.{entry};
ghost use Rattle.fractured_json_containers.specs.Asked.{key_by, key_end, value_end, ReadsKey};
ghost use Rattle.fractured_json_answers.specs.Told.{told_place};

use fractured_json_list::names::count_of;
use fractured_json_values::key_number::key_number_at;
use fractured_json_values::texts::{room_of, word_of};
use fractured_json_values::types::{KeyHead, KeyKind, key_head};
use fractured_json_values::values::{Numeral, Open, byte_at, open_at};
use json_model::limits::DEEPEST;
use json_model::{Refusal, refuse};

// The levels left for the values in a container at the cursor.
pub(crate) const INNER: usize = DEEPEST - 1;

// A key: where its text stands in the document and how long that is, or which name of the key list it is; and where the
// key ends. Where a name stands is looked for by those alone who need its text.
#[derive(Clone, Copy)]
pub enum KeyText {
    At {
        start: usize,
        len: usize,
        past: usize,
    },
    Name {
        number: usize,
        past: usize,
    },
}

// What a question is lent: the document, the key list, and a key table with the number of its keys.
#[derive(Clone, Copy)]
pub struct Lent<'a> {
    pub doc: &'a [u8],
    pub list: &'a [u8],
    pub keys: &'a [u32],
    pub count: usize,
}

impl<'a> Lent<'a> {
    pub fn new(doc: &'a [u8], list: &'a [u8], keys: &'a [u32], count: usize) -> Lent<'a>
        ensures { (result.doc.now ≡ doc.now) × (result.list.now ≡ list.now) × (result.keys.now ≡ keys.now) × (result.count ≡ count) }
    {
        Lent {
            doc,
            list,
            keys,
            count,
        }
    }
}

impl Lent<'_> {
    // A back reference: 38 unless its number is under the count, the count not over the room, and its pair inside the
    // document.
    #[tactic(auto, using(crate::proofs::AskedKeys::back_laws), unfolding(fractured_json_rules::specs::KeyTable::room_of))]
    fn back_key(&self, at: usize, n: Numeral) -> Result<KeyText, Refusal>
        ensures { ReadsKey self.now.list.now (ask (back_key self.now.doc.now self.now.keys.now self.now.count at (numeral n.number n.past))) result }
    {
        let Numeral { number, past } = n;
        if self.count <= number {
            return refuse(38, at);
        }
        if room_of(self.keys) < self.count {
            return refuse(38, at);
        }
        let start = word_of(self.keys, 2 * number);
        let len = word_of(self.keys, 2 * number + 1);
        if self.doc.len() < start + len {
            return refuse(38, at);
        }
        Ok(KeyText::At { start, len, past })
    }

    // A key by its kind, once the number that it carries has been read.
    #[tactic(auto, using(crate::proofs::AskedKeys::numbered_laws))]
    fn numbered_key(&self, at: usize, kind: KeyKind, n: Numeral) -> Result<KeyText, Refusal>
        requires { n.past ≤ length self.now.doc.now }
        ensures { ReadsKey self.now.list.now (ask (numbered_by (text_key self.now.doc.now at) (back_key self.now.doc.now self.now.keys.now self.now.count at) (name_key self.now.list.now at) kind (numeral n.number n.past))) result }
    {
        let Numeral { number, past } = n;
        match kind {
            KeyKind::Immediate if self.doc.len() - past < number => refuse(35, at),
            KeyKind::Immediate => Ok(KeyText::At {
                start: past,
                len: number,
                past: past + number,
            }),
            KeyKind::Back => self.back_key(at, n),
            KeyKind::Global if number < count_of(self.list) => Ok(KeyText::Name { number, past }),
            KeyKind::Global => refuse(38, at),
        }
    }

    // The key at a place, as a question reads it.
    #[tactic(auto, using(crate::proofs::AskedKeys::read_key_laws))]
    pub(crate) fn read_key(&self, at: usize) -> Result<KeyText, Refusal>
        ensures { ReadsKey self.now.list.now (ask (key_by self.now at)) result }
    {
        let Some(KeyHead { kind, number }) = key_head(byte_at(self.doc, at)?) else {
            return refuse(36, at);
        };
        self.numbered_key(at, kind, key_number_at(self.doc, at, number)?)
    }

    // Where the key at a place ends.
    #[tactic(auto, using(crate::proofs::AskedWalk::pass_laws))]
    pub(crate) fn pass_key(&self, at: usize) -> Result<usize, Refusal>
        ensures { told_place result ≡ ask (key_end self.now at) }
    {
        let (KeyText::At { past, .. } | KeyText::Name { past, .. }) = self.read_key(at)?;
        Ok(past)
    }

    // The end of the value at a place, with so many levels left for containers.
    #[cycle(skip_skip_entries_skip_entry)]
    #[tactic(auto, using(crate::proofs::AskedWalk::skip_laws))]
    pub(crate) fn skip(&self, at: usize, levels: usize) -> Result<usize, Refusal>
        ensures { told_place result ≡ ask (value_end self.now levels at) }
    {
        match open_at(self.doc, at)? {
            Open::Leaf(past) => Ok(past),
            Open::Container {
                object,
                n,
                at: first,
            } => {
                if levels == 0 {
                    return refuse(41, at);
                }
                self.skip_entries(first, n, object, levels - 1)
            }
        }
    }

    // The end of `n` entries of an object or array from a place on, with `below` levels left for their values.
    #[cycle(skip_skip_entries_skip_entry)]
    #[tactic(auto, using(crate::proofs::AskedWalk::entries_laws))]
    pub(crate) fn skip_entries(
        &self,
        first: usize,
        n: usize,
        object: bool,
        below: usize,
    ) -> Result<usize, Refusal>
        ensures { told_place result ≡ ask (in_turn (entry object (key_end self.now) (value_end self.now below)) n first) }
    {
        let mut at = first;
        for _ in 0..n {
            at = self.skip_entry(at, object, below)?;
        }
        Ok(at)
    }

    // The end of one entry: a value, in an object after its key.
    #[cycle(skip_skip_entries_skip_entry)]
    #[tactic(auto, using(crate::proofs::AskedWalk::entry_laws))]
    fn skip_entry(&self, at: usize, object: bool, below: usize) -> Result<usize, Refusal>
        ensures { told_place result ≡ ask (entry object (key_end self.now) (value_end self.now below) at) }
    {
        if object {
            return self.skip(self.pass_key(at)?, below);
        }
        self.skip(at, below)
    }
}
