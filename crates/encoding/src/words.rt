// Numbers written over the first of the lent words.
ghost use Rattle.std.specs.Prelude.{[], ◌∷◌, ◌≡◌, ◌≤◌, length};
ghost use Rattle.encoding.specs.Encoding.{hands, given, code};

use json_model::Refusal;

// What is returned where too few words are lent.
pub const TOO_FEW: u32 = 255;

// Writes the values, and answers the number: 0, or that of a refusal.
#[tactic(auto, using(crate::proofs::WordLaws::word_laws))]
pub fn hand<const N: usize>(out: &mut [u64], number: u32, values: [u64; N]) -> u32
    requires { N ≤ length out.old }
    ensures { hands result out.new ≡ given out.old (code number values.entry) }
{
    out[..N].copy_from_slice(&values);
    number
}

// A refusal: its place is written, its number answered.
pub fn refuse(out: &mut [u64], r: Refusal) -> u32
    requires { 1 ≤ length out.old }
    ensures { hands result out.new ≡ given out.old (code r.number (r.place ∷ [])) }
{
    hand(out, r.number, [r.place as u64])
}
