// A reader of Fractured JSON: the checks of a key list and of a document with a lent key table, and the questions. Each
// is proved equal to its rule in `fractured_json_rules`; the crate `claims` says what that makes of their answers.
#![tactic(auto)]

pub use fractured_json_answers::{Key, Kind, Member, Number};
pub use fractured_json_check::answers::Checked;
pub use fractured_json_check::check;
pub use fractured_json_containers::questions::{element, end, first_member, key, key_text, member};
pub use fractured_json_list::check_list;
pub use fractured_json_scalars::questions::{kind, number, string, string_text};
