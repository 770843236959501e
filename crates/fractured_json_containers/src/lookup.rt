// The first member of an object by its key. A key that is a name of the key list is compared by its number: the text
// has been looked up among the names before.
ghost use Rattle.std.specs.Prelude.{◌≡◌};
ghost use Rattle.json_model.specs.Reading.{ask};
ghost use Rattle.fractured_json_rules.specs.Questions.{find_in};
ghost use Rattle.fractured_json_list.specs.Finding.{Named};
ghost use Rattle.fractured_json_containers.specs.Asked.{Compares, Looks};
ghost use Rattle.fractured_json_answers.specs.Told.{told_found};

use crate::skip::{INNER, KeyText, Lent};
use fractured_json_values::texts::text_of;
use fractured_json_values::values::Numeral;
use json_model::Refusal;
use std::ops::ControlFlow;
use text::same;

// A text that is looked for among the keys, with the name of the key list that has it, if one has.
#[derive(Clone, Copy)]
pub(crate) struct Sought<'a> {
    pub lent: Lent<'a>,
    pub text: &'a [u8],
    pub named: Option<usize>,
    pub ghost is_named: { Named lent.list.now text.now named },
}

// Whether a key has the text that is looked for, and where the key ends.
#[derive(Clone, Copy)]
pub struct Compared {
    pub same: bool,
    pub past: usize,
}

impl Sought<'_> {
    // Whether the key at a place has the text; a name has it exactly if it is the one named.
    fn compare_key(&self, at: usize) -> Result<Compared, Refusal>
        ensures { Compares self.now.lent.doc.now self.now.lent.list.now self.now.lent.keys.now self.now.lent.count self.now.text.now at result }
    {
        match self.lent.read_key(at)? {
            KeyText::At { start, len, past } => {
                let same = same(text_of(self.lent.doc, start, len), self.text);
                Ok(Compared { same, past })
            }
            KeyText::Name { number, past } => {
                let same = self.named == Some(number);
                Ok(Compared { same, past })
            }
        }
    }

    // What the member at a place, with `later` members after it, says of the first one with the text: where its value
    // stands or that there is none, or where the next member stands. After the last key nothing is read.
    #[tactic(auto, using(crate::proofs::LookupLaws::look_laws))]
    fn look_at(&self, at: usize, later: usize) -> Result<ControlFlow<Option<usize>, usize>, Refusal>
        ensures { Looks self.now.lent.doc.now self.now.lent.list.now self.now.lent.keys.now self.now.lent.count self.now.text.now later at result }
    {
        let Compared { same, past } = self.compare_key(at)?;
        if same {
            return Ok(ControlFlow::Break(Some(past)));
        }
        if later == 0 {
            return Ok(ControlFlow::Break(None));
        }
        Ok(ControlFlow::Continue(self.lent.skip(past, INNER)?))
    }

    // The first member with the text of the `n.number` members from `n.past` on.
    #[tactic(auto, using(crate::proofs::LookupLaws::find_laws))]
    pub(crate) fn find(&self, n: Numeral) -> Result<Option<usize>, Refusal>
        ensures { told_found result ≡ ask (find_in self.now.lent.doc.now self.now.lent.list.now self.now.lent.keys.now self.now.lent.count self.now.text.now n.number n.past) }
    {
        let mut at = n.past;
        for later in (0..n.number).rev() {
            match self.look_at(at, later)? {
                ControlFlow::Break(found) => {
                    return Ok(found);
                }
                ControlFlow::Continue(next) => {
                    at = next;
                }
            }
        }
        Ok(None)
    }
}
