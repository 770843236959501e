// A document that keeps rules 1 to 4, so that its slots can be read without further tests.
ghost use Rattle.std.specs.Prelude.{◌≡◌};
ghost use Rattle.binary_json_rules.specs.Areas.{numbers};
ghost use Rattle.binary_json_areas.specs.Laid.{Framed};

use crate::areas::fields_at;

// Where its string index starts, and how many strings it has.
#[derive(Clone, Copy)]
pub struct Header<'a> {
    pub bytes: &'a [u8],
    pub index: usize,
    pub count: usize,
    pub ghost framed: { Framed bytes.now index count },
}

impl Header<'_> {
    // Where the texts end, and so the numbers start.
    #[tactic(auto, using(crate::proofs::Openings::end_laws))]
    pub(crate) fn texts_end(&self) -> usize
        ensures { result ≡ numbers self.now.bytes.now }
    {
        if self.count == 0 {
            return self.index + 4;
        }
        fields_at(self.bytes, self.index + 4 * self.count).high
    }
}
