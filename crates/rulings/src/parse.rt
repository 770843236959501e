// The parts of a row: numbers, and texts in hexadecimal. They are parts of its bytes, since a row may have bytes that
// are no UTF-8 where nothing is asked.
ghost use Rattle.std.specs.Prelude.{◌<◌, IfOk};

use crate::unanswered::Unanswered;
use std::alloc::Global;
use std::num::ParseIntError;
use std::str;
use std::str::FromStr;

// A word as a text; one with other bytes is none that is looked for.
pub(crate) fn text(word: &[u8]) -> &str {
    str::from_utf8(word).unwrap_or("")
}

// A number in decimal digits alone.
pub(crate) fn number<N: FromStr<Err = ParseIntError>>(word: &[u8]) -> Result<N, Unanswered> {
    if !word.iter().all(|c| c.is_ascii_digit()) {
        return Err(Unanswered::Unreadable);
    }
    text(word).parse().map_err(|_| Unanswered::Unreadable)
}

// A digit of a text in hexadecimal, which has no small letters; `char::to_digit` takes them.
fn digit(c: u8) -> Result<u8, Unanswered>
    ensures { IfOk result (λ d. d < 16) }
{
    match c {
        b'0'..=b'9' => Ok(c - b'0'),
        b'A'..=b'F' => Ok(c - b'A' + 10),
        _ => Err(Unanswered::Unreadable),
    }
}

// The byte of two digits.
fn byte(digits: &[u8]) -> Result<u8, Unanswered> {
    match *digits {
        [high, low] => Ok(16 * digit(high)? + digit(low)?),
        _ => Err(Unanswered::Unreadable),
    }
}

// The bytes of a text in hexadecimal, so many at most, where `-` is the empty one.
pub(crate) fn bytes(alloc: Global, word: &[u8], most: usize) -> Result<Vec<u8>, Unanswered> {
    match *word {
        [] => Err(Unanswered::Unreadable),
        [b'-'] => Ok(Vec::new(alloc)),
        _ if most < word.len() / 2 => Err(Unanswered::Unreadable),
        _ => word.chunks(2).map(byte).try_collect(alloc),
    }
}

// The value of an option, if a word is one of that name. Not by `split_once`: of a=b=c the value is b, and what the
// program answers may not change.
pub(crate) fn option<'r>(word: &'r [u8], name: &[u8]) -> Option<&'r [u8]> {
    let mut parts = word.split(|c| *c == b'=');
    if parts.next() == Some(name) {
        parts.next().filter(|value| !value.is_empty())
    } else {
        None
    }
}
