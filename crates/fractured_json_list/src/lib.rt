// The key list of Fractured JSON: its own check, proved equal to its rules in `fractured_json_rules`, how many names it
// has, where each of them stands, and which of them has a text.
#![tactic(auto)]

pub mod names;
mod room;
mod walk;

ghost use Rattle.std.specs.Prelude.{◌≡◌};
ghost use Rattle.json_model.specs.Reading.{ask, told};
ghost use Rattle.fractured_json_rules.specs.KeyList.{key_list};

use fractured_json_values::texts::pairs_in;
use json_model::{Verdict, refuse};
use names::count_of;
use room::{LONG, MIDDLE, MOST, SHORT, pass_with};
use walk::end_at;

// The check of a key list: the config byte, the count, the names, and that nothing stands after them.
#[tactic(auto, using(crate::proofs::CheckLaws::check_laws))]
pub fn check_list(list: &[u8]) -> Verdict
    ensures { told result ≡ ask (key_list list.now) }
{
    let len = list.len();
    if len == 0 {
        return refuse(52, 0);
    }
    if list[0] != 0 {
        return refuse(51, 0);
    }
    if len < 3 {
        return refuse(52, 1);
    }
    let n = count_of(list);
    if n == 0 {
        return end_at(list, 3);
    }
    // A name takes two bytes or more.
    let most = pairs_in(list, n);
    if most <= SHORT / 2 {
        return pass_with::<SHORT>(list, n);
    }
    if most <= MIDDLE / 2 {
        return pass_with::<MIDDLE>(list, n);
    }
    if most <= LONG / 2 {
        return pass_with::<LONG>(list, n);
    }
    pass_with::<MOST>(list, n)
}
