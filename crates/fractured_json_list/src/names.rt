// How many names a key list has, where name j stands, and which name has a text: meant for good lists, and total. A
// byte past the end counts as 0.
ghost use Rattle.std.specs.Prelude.{◌≡◌, ◌<◌};
ghost use Rattle.json_model.specs.Bytes.{number};
ghost use Rattle.fractured_json_rules.specs.KeyList.{count_in, name_of};
ghost use Rattle.fractured_json_list.specs.Finding.{named_from};

use fractured_json_values::texts::text_of;
use json_model::Span;
use text::same;

// The 16-bit number at a place.
#[tactic(auto, using(crate::proofs::NameLaws::number_laws))]
pub(crate) fn number_at(list: &[u8], at: usize) -> usize
    ensures { (result ≡ number list.now at 2) × (result < 65_536) }
{
    let len = list.len();
    if len <= at {
        return 0;
    }
    if len - at < 2 {
        return list[at] as usize;
    }
    word::integer(list, at, 2) as usize
}

// How many names the list says that it has.
pub fn count_of(list: &[u8]) -> usize
    ensures { (result ≡ count_in list.now) × (result < 65_536) }
{
    number_at(list, 1)
}

// The text of name j, which is found by the lengths of the names before it.
#[tactic(auto, using(crate::proofs::NameLaws::name_laws))]
pub fn name_of(list: &[u8], j: usize) -> Span
    requires { j < 65_536 }
    ensures { (result.place ≡ (name_of list.now j).start) × (result.len ≡ (name_of list.now j).len) }
{
    let mut at = 3;
    for _ in 0..j {
        at = at + 2 + number_at(list, at);
    }
    Span {
        place: at + 2,
        len: number_at(list, at),
    }
}

// The number of the first name with the text `x`.
#[tactic(auto, using(crate::proofs::FindLaws::find_laws))]
pub fn find_name(list: &[u8], x: &[u8]) -> Option<usize>
    ensures { result ≡ named_from list.now x.now (count_in list.now) 3 0 }
{
    let mut at = 3;
    for j in 0..count_of(list) {
        let len = number_at(list, at);
        if same(text_of(list, at + 2, len), x) {
            return Some(j);
        }
        at = at + 2 + len;
    }
    None
}
