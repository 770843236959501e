// Room for the names on the way, by their number: a short list does not pay for room that it cannot use, nor does a
// list that says that it has more names than its bytes can hold. There is a link for each name, so rule 54 never takes
// a scan.
ghost use Rattle.std.specs.Prelude.{◌≡◌, ◌<◌, ◌^◌, [], ◌/◌};
ghost use Rattle.json_model.specs.Reading.{ask, told};
ghost use Rattle.fractured_json_rules.specs.KeyList.{names_from};
ghost use Rattle.fractured_json_list.specs.Passing.{RoomFor};

use crate::walk::pass_names;
use json_model::Verdict;

// How many words and links there are, two of each for a name; the last is for the most names that a list can have.
pub(crate) const SHORT: usize = 128;

pub(crate) const MIDDLE: usize = 2048;

pub(crate) const LONG: usize = 16384;

pub(crate) const MOST: usize = 131070;

// Room of N words and N links. It is not inlined, so that a short list does not pay for the stack of a long one either.
#[inline(never)]
#[tactic(auto, using(crate::proofs::CheckLaws::room_laws))]
pub(crate) fn pass_with<const N: usize>(list: &[u8], n: usize) -> Verdict
    requires room { RoomFor list.now n (N / 2) }
    requires small { N < 2 ^ 32 }
    ensures { told result ≡ ask (names_from list.now n 3 []) }
{
    let mut words = [0u32; N];
    let mut links = [0u16; N];
    pass_names(list, n, &mut words, &mut links)
}
