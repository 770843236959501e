// A hash of a text, eight bytes at a step.
ghost use Rattle.std.specs.Prelude.{◌≡◌, ◌^◌, ◌<◌};
ghost use Rattle.text.specs.Hash.{scrambled, mixed, hash_of};

// The two halves of a product, added up.
#[tactic(auto, using(crate::proofs::Hashing::mix_laws))]
fn scramble(x: u64) -> u64
    ensures { (result ≡ scrambled x) × (result < 2 ^ 33) }
{
    let p = x % 4294967296 * 2654435761;
    p / 4294967296 + p % 4294967296
}

// The hash of what went before, and up to eight bytes more.
#[tactic(auto, using(crate::proofs::Hashing::mix_laws))]
fn mix(h: u64, w: u64) -> u64
    requires { h < 2 ^ 33 }
    ensures { (result ≡ mixed h w) × (result < 2 ^ 33) }
{
    scramble(scramble(h + w % 4294967296) + w / 4294967296)
}

// The hash of a text. Not by `chunks_exact`: up to a fifth more instructions on texts of eight bytes or more.
#[tactic(auto, using(crate::proofs::Hashing::hash_laws))]
pub fn hash_of(t: &[u8]) -> u64
    ensures { result ≡ hash_of t.now }
{
    let mut h: u64 = 0;
    let n = t.len() / 8;
    for k in 0..n {
        h = mix(h, word::integer(t, 8 * k, 8));
    }
    let i = 8 * n;
    mix(h, word::integer(t, i, t.len() - i)) % 4294967296
}
