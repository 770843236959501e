// The types that both readers answer with, and the limits of both formats. What they mean stands in specs/.
#![tactic(auto)]

pub mod limits;

ghost use Rattle.std.specs.Prelude.{◌≡◌};

// A refusal: the place where a rule failed, and the number of that rule. It stays a number and no enum: rules, claims,
// the C interface and docs/format call a refusal by it.
#[derive(Clone, Copy, Debug, PartialEq, Eq)]
pub struct Refusal {
    pub place: usize,
    pub number: u32,
}

// A text, as a part of what holds it: where it stands and how long it is.
#[derive(Clone, Copy, Debug, PartialEq, Eq)]
pub struct Span {
    pub place: usize,
    pub len: usize,
}

// The verdict of a check.
pub type Verdict = Result<(), Refusal>;

// A refusal as the answer of what was to be read.
#[inline(always)]
pub fn refuse<T>(number: u32, place: usize) -> Result<T, Refusal>
    ensures { result ≡ Err (record { place = place; number = number }) }
{
    Err(Refusal { place, number })
}
