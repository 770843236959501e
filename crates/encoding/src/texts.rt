// What a text and a comparing of two texts hand over. Each call has its own arm for a refusal, as in `binary`.
ghost use Rattle.std.specs.Prelude.{◌≡◌, ◌≤◌, length};
ghost use Rattle.json_model.specs.Reading.{told_by};
ghost use Rattle.encoding.specs.Encoding.{hands, given, coded, place_and_length, compared};

use crate::words::{hand, refuse};
use json_model::{Refusal, Span};
use std::cmp::Ordering;
use text::Comparison;

// Place and length of a text.
pub fn give_span(out: &mut [u64], answer: Result<Span, Refusal>) -> u32
    requires { 2 ≤ length out.old }
    ensures { hands result out.new ≡ given out.old (coded place_and_length (told_by (λ s. s) answer)) }
{
    match answer {
        Ok(Span { place, len }) => hand(out, 0, [place as u64, len as u64]),
        Err(r) => refuse(out, r),
    }
}

// The number of the order, and the steps.
pub fn give_comparison(out: &mut [u64], answer: Comparison) -> u32
    requires { 2 ≤ length out.old }
    ensures { hands result out.new ≡ given out.old (compared answer.order answer.steps) }
{
    let steps = answer.steps as u64;
    match answer.order {
        Ordering::Less => hand(out, 0, [0, steps]),
        Ordering::Equal => hand(out, 0, [1, steps]),
        Ordering::Greater => hand(out, 0, [2, steps]),
    }
}
