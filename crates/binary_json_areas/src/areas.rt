// Where the areas of a document stand, and the words in them. Words are read here and nowhere else.
ghost use Rattle.std.specs.Prelude.{◌≡◌, ◌+◌, ◌*◌, ◌^◌, ◌≤◌, ◌<◌, length};
ghost use Rattle.json_model.specs.Bytes.{part};
ghost use Rattle.binary_json_rules.specs.Areas.{word, low, high};
ghost use Rattle.binary_json_areas.specs.Headed.{Headed};
ghost use Rattle.binary_json_areas.specs.Laid.{Indexed};

use crate::header::Header;
use json_model::limits::{LEAST_BINARY, LONGEST};
use json_model::{Refusal, Span, refuse};
use word::Fields;

// The word at a place.
pub fn word_at(doc: &[u8], at: usize) -> usize
    requires { at + 4 ≤ length doc.now }
    ensures { (result ≡ word doc.now at) × (result < 2 ^ 32) }
{
    word::word_at(doc, at) as usize
}

// The two fields of the word at a place; the lower one has five bits.
pub fn fields_at(doc: &[u8], at: usize) -> Fields
    requires { at + 4 ≤ length doc.now }
    ensures { (result.low ≡ low doc.now at) × (result.high ≡ high doc.now at) × (result.high < 2 ^ 27) }
{
    word::split(word::word_at(doc, at), 5)
}

// The part of a document that a text takes up.
pub fn part(doc: &[u8], text: Span) -> &[u8]
    requires { text.place + text.len ≤ length doc.now }
    ensures { result.now ≡ part doc.now text.place text.len }
{
    &doc[text.place..text.place + text.len]
}

// Rules 1 to 4, as far as they concern the string index offset: where the string index starts.
#[tactic(auto, using(crate::proofs::Headers::index_laws))]
fn read_index(doc: &[u8]) -> Result<usize, Refusal>
    ensures { Indexed doc.now result }
{
    let len = doc.len();
    if len < LEAST_BINARY {
        return refuse(1, len);
    }
    if LONGEST < len {
        return refuse(2, len);
    }
    let Fields {
        low: version,
        high: index,
    } = fields_at(doc, 0);
    if version != 1 {
        return refuse(3, 0);
    }
    if index < 8 || index % 4 != 0 || len < index + 4 {
        return refuse(4, 0);
    }
    Ok(index)
}

// Rules 1 to 4.
#[tactic(auto, using(crate::proofs::Headers::header_laws))]
pub fn read_header(bytes: &[u8]) -> Result<Header<'_>, Refusal>
    ensures { Headed bytes.now result }
{
    let index = read_index(bytes)?;
    let count = word_at(bytes, index);
    if bytes.len() < index + 4 + 4 * count {
        return refuse(4, index);
    }
    Ok(Header {
        bytes,
        index,
        count,
    })
}

// The areas of a document: where the string index starts, how many strings it has, and where the numbers start.
#[derive(Clone, Copy)]
pub struct Areas {
    pub index: usize,
    pub count: usize,
    pub numbers: usize,
}
