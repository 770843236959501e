// A reader of BinaryJson: the check, the questions and both lookups. Each is proved equal to its rule in
// `binary_json_rules`; the crate `claims` says what that makes of their answers.
#![tactic(auto)]

pub use binary_json_answers::{Looked, MemberAt, Sized, Typed};
pub use binary_json_areas::offsets::{NumberOffset, SlotOffset, TreeOffset};
pub use binary_json_check::check;
pub use binary_json_entries::{
    container, entry_type, number, slot, slot_text, string, string_text,
};
pub use binary_json_lookup::lookup::{plain_scan, quick_lookup};
pub use binary_json_metas::{element, kind_and_size, member};
pub use json_model::{Refusal, Span};
