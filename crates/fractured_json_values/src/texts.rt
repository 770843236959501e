// Texts of the document or the key list, and the words and room of a key table.
ghost use Rattle.std.specs.Prelude.{◌≡◌, ◌/◌, ◌^◌, ◌<◌, min, length, get_or};
ghost use Rattle.json_model.specs.Bytes.{part};
ghost use Rattle.fractured_json_rules.specs.KeyTable.{room_of};

use json_model::limits::MOST_KEYS;

// The bytes of a text that start at a place, as far as the document goes. By tests: `get` gives nothing where a text is
// cut short, and this gives what is there.
pub fn text_of(doc: &[u8], start: usize, len: usize) -> &[u8]
    ensures { result.now ≡ part doc.now start len }
{
    if doc.len() < start {
        return &doc[0..0];
    }
    if doc.len() - start < len {
        return &doc[start..];
    }
    let end = start + len;
    &doc[start..end]
}

// The word at a place of the table, as a number to count with. Its callers know that the word is there and pay for no
// test.
pub fn word_of(keys: &[u32], i: usize) -> usize
    requires { i < length keys.now }
    ensures { (result ≡ get_or keys.now i 0) × (result < 2 ^ 32) }
{
    keys[i] as usize
}

// How many pairs of neighbours there are in a slice, up to a number.
pub fn pairs_in<T>(items: &[T], most: usize) -> usize
    ensures { result ≡ min most (length items.now / 2) }
{
    most.min(items.len() / 2)
}

// How many keys a table has room for.
#[tactic(auto, unfolding(fractured_json_rules::specs::KeyTable::room_of))]
pub fn room_of(keys: &[u32]) -> usize
    ensures { result ≡ room_of keys.now }
{
    pairs_in(keys, MOST_KEYS)
}
