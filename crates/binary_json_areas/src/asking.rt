// What comes before every question: rules 1 to 4 and the areas; and the word of the tree that a question is asked at.
ghost use Rattle.binary_json_areas.specs.Asking.{Opens, WordNamed, WordRead};

use crate::areas::{Areas, fields_at, read_header};
use crate::document::Document;
use crate::header::Header;
use json_model::{Refusal, refuse};
use word::Fields;

// Rules 1 to 4, then 20 at the cursor unless the texts end after the slots and inside the document.
#[tactic(auto, using(crate::proofs::Openings::open_laws))]
pub fn open(bytes: &[u8], cursor: usize) -> Result<Document<'_>, Refusal>
    ensures { Opens bytes.now cursor result }
{
    let header = read_header(bytes)?;
    let Header { index, count, .. } = header;
    let numbers = header.texts_end();
    if numbers < index + 4 + 4 * count || bytes.len() < numbers {
        return refuse(20, cursor);
    }
    Ok(Document {
        bytes,
        areas: Areas {
            index,
            count,
            numbers,
        },
    })
}

impl Document<'_> {
    // Whether a word of the tree stands at a place: at 4, 8, .. S-4.
    #[tactic(auto, using(crate::proofs::Openings::word_laws))]
    pub fn tree_word(&self, at: usize) -> bool
        ensures { WordNamed self.now.bytes.now self.now.areas at result }
    {
        let index = self.areas.index;
        4 <= at && at % 4 == 0 && at <= index && 4 <= index - at
    }

    // The word of the tree at the cursor, which most questions read first; 20 if none stands there.
    #[tactic(auto, using(crate::proofs::Openings::word_here_laws))]
    pub fn word_here(&self, cursor: usize) -> Result<Fields, Refusal>
        ensures { WordRead self.now.bytes.now self.now.areas cursor result }
    {
        if self.tree_word(cursor) {
            return Ok(fields_at(self.bytes, cursor));
        }
        refuse(20, cursor)
    }
}
