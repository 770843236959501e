// The questions that go by the key table: where a value ends, an element, a member, the first member by its key, and a
// key. Each is right for all bytes, key lists, cursors, key tables and counts, and reads only what it needs, in the
// order of the rules. What it asks after the opening is a method of `Lent` (`.._here`), for walks that open once; the
// end's is `skip`, of this crate alone. The calls take what is lent one by one, as README, claims and the exports name
// it.
ghost use Rattle.std.specs.Prelude.{◌≡◌};
ghost use Rattle.json_model.specs.Reading.{ask, answers};
ghost use Rattle.fractured_json_rules.specs.KeyList.{key_list};
ghost use Rattle.fractured_json_rules.specs.Questions.{end_of, element_from, element_here, element_at, member_from, member_here, member_at, first_here, first_member, read_key, key_at, key_bytes};
ghost use Rattle.fractured_json_answers.specs.Told.{told_place, told_member, told_found, told_key};

use crate::lookup::Sought;
use crate::skip::{INNER, KeyText, Lent};
use fractured_json_answers::{Key, Member};
use fractured_json_list::names::{find_name, name_of};
use fractured_json_scalars::enter::{open_question, wanted_type};
use fractured_json_values::texts::text_of;
use fractured_json_values::types::ValueType;
use fractured_json_values::values::Numeral;
use json_model::limits::DEEPEST;
use json_model::{Refusal, Span, refuse};

impl Lent<'_> {
    // Element i of the array at the cursor, whose values are counted by `n` and start where it ends.
    #[tactic(auto, using(crate::proofs::QuestionLaws::element_from_laws))]
    fn element_from(&self, at: usize, i: usize, n: Numeral) -> Result<usize, Refusal>
        ensures { told_place result ≡ ask (element_from self.now.doc.now self.now.list.now self.now.keys.now self.now.count at i n.number n.past) }
    {
        if n.number <= i {
            return refuse(22, at);
        }
        self.skip_entries(n.past, i, false, INNER)
    }

    // Element i of the array at the cursor, after the opening.
    #[tactic(auto, using(crate::proofs::QuestionLaws::element_here_laws))]
    pub fn element_here(&self, at: usize, i: usize) -> Result<usize, Refusal>
        ensures { told_place result ≡ ask (element_here self.now.doc.now self.now.list.now self.now.keys.now self.now.count at i) }
    {
        let n = wanted_type(self.doc, at, ValueType::Array)?;
        self.element_from(at, i, n)
    }

    // Member j of the object at the cursor, whose members are counted by `n` and start where it ends.
    #[tactic(auto, using(crate::proofs::QuestionLaws::member_from_laws))]
    fn member_from(&self, at: usize, j: usize, n: Numeral) -> Result<Member, Refusal>
        ensures { told_member result ≡ ask (member_from self.now.doc.now self.now.list.now self.now.keys.now self.now.count at j n.number n.past) }
    {
        if n.number <= j {
            return refuse(22, at);
        }
        let key = self.skip_entries(n.past, j, true, INNER)?;
        let value = self.pass_key(key)?;
        Ok(Member { key, value })
    }

    // Member j of the object at the cursor, after the opening.
    #[tactic(auto, using(crate::proofs::QuestionLaws::member_here_laws))]
    pub fn member_here(&self, at: usize, j: usize) -> Result<Member, Refusal>
        ensures { told_member result ≡ ask (member_here self.now.doc.now self.now.list.now self.now.keys.now self.now.count at j) }
    {
        let n = wanted_type(self.doc, at, ValueType::Object)?;
        self.member_from(at, j, n)
    }

    // The first member with the key `x` of the object at the cursor, after the opening, which says that the key list is
    // good.
    #[tactic(auto, using(crate::proofs::QuestionLaws::first_here_laws))]
    pub fn first_here(&self, at: usize, x: &[u8]) -> Result<Option<usize>, Refusal>
        requires { ask (key_list self.now.list.now) ≡ answers tt }
        ensures { told_found result ≡ ask (first_here self.now.doc.now self.now.list.now self.now.keys.now self.now.count at x.now) }
    {
        let n = wanted_type(self.doc, at, ValueType::Object)?;
        let sought = Sought {
            lent: *self,
            text: x,
            named: find_name(self.list, x),
        };
        sought.find(n)
    }

    // The key at a key byte, after the opening.
    #[tactic(auto, using(crate::proofs::QuestionLaws::key_here_laws))]
    pub fn key_here(&self, at: usize) -> Result<Key, Refusal>
        ensures { told_key result ≡ ask (read_key self.now.doc.now self.now.list.now self.now.keys.now self.now.count at) }
    {
        match self.read_key(at)? {
            KeyText::At { start, len, past } => Ok(Key::Document {
                place: start,
                len,
                past,
            }),
            KeyText::Name { number, past } => {
                let Span { place, len } = name_of(self.list, number);
                Ok(Key::List { place, len, past })
            }
        }
    }
}

// Where the value at the cursor ends.
#[tactic(auto, using(crate::proofs::QuestionLaws::end_laws))]
pub fn end(doc: &[u8], list: &[u8], keys: &[u32], count: usize, at: usize) -> Result<usize, Refusal>
    ensures { told_place result ≡ ask (end_of doc.now list.now keys.now count at) }
{
    open_question(doc, list, at)?;
    Lent::new(doc, list, keys, count).skip(at, DEEPEST)
}

// Where element i of the array at the cursor stands.
#[tactic(auto, using(crate::proofs::QuestionLaws::element_laws))]
pub fn element(
    doc: &[u8],
    list: &[u8],
    keys: &[u32],
    count: usize,
    at: usize,
    i: usize,
) -> Result<usize, Refusal>
    ensures { told_place result ≡ ask (element_at doc.now list.now keys.now count at i) }
{
    open_question(doc, list, at)?;
    Lent::new(doc, list, keys, count).element_here(at, i)
}

// Where the key byte and the value of member j of the object at the cursor stand.
#[tactic(auto, using(crate::proofs::QuestionLaws::member_laws))]
pub fn member(
    doc: &[u8],
    list: &[u8],
    keys: &[u32],
    count: usize,
    at: usize,
    j: usize,
) -> Result<Member, Refusal>
    ensures { told_member result ≡ ask (member_at doc.now list.now keys.now count at j) }
{
    open_question(doc, list, at)?;
    Lent::new(doc, list, keys, count).member_here(at, j)
}

// Where the value of the first member with the key `x` of the object at the cursor stands, if there is one.
#[tactic(auto, using(crate::proofs::QuestionLaws::first_member_laws))]
pub fn first_member(
    doc: &[u8],
    list: &[u8],
    keys: &[u32],
    count: usize,
    at: usize,
    x: &[u8],
) -> Result<Option<usize>, Refusal>
    ensures { told_found result ≡ ask (first_member doc.now list.now keys.now count at x.now) }
{
    open_question(doc, list, at)?;
    Lent::new(doc, list, keys, count).first_here(at, x)
}

// The key at a key byte: where its text stands in the document or in the key list, how long it is, and where the key
// ends.
#[tactic(auto, using(crate::proofs::QuestionLaws::key_laws))]
pub fn key(doc: &[u8], list: &[u8], keys: &[u32], count: usize, at: usize) -> Result<Key, Refusal>
    ensures { told_key result ≡ ask (key_at doc.now list.now keys.now count at) }
{
    open_question(doc, list, at)?;
    Lent::new(doc, list, keys, count).key_here(at)
}

// The text of the key at a key byte, as a part of the document or of the key list, whichever holds it: `key_bytes` says
// which. Empty at a refusal, as `key_bytes` is, and no `Result`: what this call answers may not change.
pub fn key_text<'a>(
    doc: &'a [u8],
    list: &'a [u8],
    keys: &[u32],
    count: usize,
    at: usize,
) -> &'a [u8]
    ensures { result.now ≡ key_bytes doc.now list.now keys.now count at }
{
    match key(doc, list, keys, count, at) {
        Err(_) => text_of(doc, 0, 0),
        Ok(Key::Document { place, len, .. }) => text_of(doc, place, len),
        Ok(Key::List { place, len, .. }) => text_of(list, place, len),
    }
}
