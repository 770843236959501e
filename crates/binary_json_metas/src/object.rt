// An object of an open document, so that what its members name can be read without further tests.
ghost use Rattle.std.specs.Prelude.{◌≡◌, ◌+◌, ◌*◌, ◌<◌};
ghost use Rattle.binary_json_rules.specs.Areas.{word};
ghost use Rattle.binary_json_rules.specs.Questions.{key_entry_of, entry_of};
ghost use Rattle.binary_json_metas.specs.Objects.{ObjectAt};

use binary_json_areas::areas::word_at;
use binary_json_areas::document::Document;
use binary_json_areas::offsets::{SlotOffset, TreeOffset};

// Where its Meta stands, and how many members it has.
#[derive(Clone, Copy)]
pub struct Object<'a> {
    pub document: Document<'a>,
    pub place: usize,
    pub size: usize,
    pub ghost found: { ObjectAt document.bytes.now document.areas place size },
}

impl Object<'_> {
    // What KeyEntry j names.
    #[tactic(auto, using(crate::proofs::Objects::members_laws))]
    pub fn key(&self, j: usize) -> SlotOffset
        requires { j < self.now.size }
        ensures { result.0 ≡ word self.now.document.bytes.now (key_entry_of self.now.place j) }
    {
        SlotOffset(word_at(self.document.bytes, self.place + 4 + 4 * j))
    }

    // Where Entry j stands.
    #[tactic(auto, using(crate::proofs::Objects::members_laws))]
    pub fn entry(&self, j: usize) -> TreeOffset
        requires { j < self.now.size }
        ensures { result.0 ≡ entry_of self.now.place self.now.size j }
    {
        TreeOffset(self.place + 4 + 4 * self.size + 4 * j)
    }
}
