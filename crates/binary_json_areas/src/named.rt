// What the words of the tree name: a slot of the string index, or a number.
ghost use Rattle.std.specs.Prelude.{true, ◌≡◌};
ghost use Rattle.binary_json_rules.specs.Areas.{text};
ghost use Rattle.binary_json_rules.specs.TreeOf.{slot_at};
ghost use Rattle.binary_json_areas.specs.Naming.{SlotNamed, NumberNamed, TextRead, TextNamed};

use crate::areas::fields_at;
use crate::document::Document;
use crate::offsets::{NumberOffset, SlotOffset};
use json_model::Span;

// Why an offset gives no number to read: none of the area stands there, or one that is not finite.
#[derive(Clone, Copy)]
pub enum NoNumber {
    NotFinite,
    Outside,
}

impl Document<'_> {
    // Whether it is the offset of a slot. The tests stand one by one: as one `&&` expression they take the check an
    // instruction more at each string.
    #[tactic(auto, using(crate::proofs::Naming::slot_named_laws))]
    pub fn slot_named(&self, slot: SlotOffset) -> bool
        ensures { SlotNamed self.now.bytes.now slot.0 result }
    {
        let a = self.areas;
        let v = slot.0;
        let first = a.index + 4;
        if v < first {
            return false;
        }
        let step = (v - first) % 4;
        if step != 0 {
            return false;
        }
        if first + 4 * a.count <= v {
            return false;
        }
        true
    }

    // The finite number at an offset, by its bits. Finite by the exponent, as the rules have it: of `f64::is_finite` it
    // would first have to be shown that it is the same.
    #[tactic(auto, using(crate::proofs::Naming::number_named_laws))]
    pub fn number_named(&self, number: NumberOffset) -> Result<u64, NoNumber>
        ensures { NumberNamed self.now.bytes.now number.0 result }
    {
        let doc = self.bytes;
        let v = number.0;
        let first = self.areas.numbers;
        if v < first || (v - first) % 8 != 0 || doc.len() - 8 < v {
            return Err(NoNumber::Outside);
        }
        let bits = word::eight(&doc[v..]);
        let exponent = (bits >> 52) % 2048;
        if exponent == 2047 {
            return Err(NoNumber::NotFinite);
        }
        Ok(bits)
    }

    // Where the text of the slot at an offset starts.
    #[tactic(auto, using(crate::proofs::Naming::text_laws))]
    fn text_start(&self, v: usize) -> usize
        requires { SlotNamed self.now.bytes.now v true }
        ensures { result ≡ text self.now.bytes.now (slot_at self.now.bytes.now v) }
    {
        let a = self.areas;
        if v == a.index + 4 {
            return a.index + 4 + 4 * a.count;
        }
        let f = fields_at(self.bytes, v - 4);
        f.high
    }

    // The text of the slot at an offset, if it is good to read: after the slots and before the numbers. The tests stand
    // one by one: joined by `||` they take the quick lookup 14 instructions more in 1,000.
    #[tactic(auto, using(crate::proofs::Naming::text_laws))]
    pub fn read_text(&self, slot: SlotOffset) -> Option<Span>
        requires { SlotNamed self.now.bytes.now slot.0 true }
        ensures { TextRead self.now.bytes.now slot.0 result }
    {
        let a = self.areas;
        let v = slot.0;
        let start = self.text_start(v);
        let f = fields_at(self.bytes, v);
        let end = f.high;
        if start < a.index + 4 + 4 * a.count {
            return None;
        }
        if end <= start {
            return None;
        }
        if a.numbers < end {
            return None;
        }
        Some(Span {
            place: start,
            len: end - 1 - start,
        })
    }

    // The text that an offset names: it must be a slot's, and good to read.
    #[tactic(auto, using(crate::proofs::Naming::named_laws))]
    pub fn text_named(&self, slot: SlotOffset) -> Option<Span>
        ensures { TextNamed self.now.bytes.now slot.0 result }
    {
        if self.slot_named(slot) {
            return self.read_text(slot);
        }
        None
    }
}
