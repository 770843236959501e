// The pairs of the lent table.
ghost use Rattle.std.specs.Prelude.{◌≡◌, ◌/◌, ◌^◌, ◌<◌, length};
ghost use Rattle.fractured_json_rules.specs.KeyList.{met};
ghost use Rattle.fractured_json_keys.specs.Passed.{keys_in, with_pair};

use fractured_json_values::texts::text_of;
use text::same;

// Stores the pair of key `count`.
#[tactic(auto, unfolding(crate::specs::Passed::with_pair))]
pub fn store(keys: &mut [u32], count: usize, start: usize, len: usize)
    requires { (count < length keys.old / 2) × (start < 2 ^ 32) × (len < 2 ^ 32) }
    ensures { keys.new ≡ with_pair keys.old count start len }
{
    keys[2 * count] = start as u32;
    keys[2 * count + 1] = len as u32;
}

// Whether a text is one of those in the table's first `count` pairs, by a scan.
#[tactic(auto, using(crate::proofs::MetBefore::met_laws))]
pub fn scan(doc: &[u8], keys: &[u32], count: usize, t: &[u8]) -> bool
    ensures { result ≡ met doc.now t.now (keys_in keys.now count) }
{
    let (pairs, _) = keys.as_chunks::<2>();
    for &[start, len] in &pairs[..count.min(pairs.len())] {
        if same(text_of(doc, start as usize, len as usize), t) {
            return true;
        }
    }
    false
}
