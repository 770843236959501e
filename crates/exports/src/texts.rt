// The comparing of two texts for callers in C.
#![tactic(auto, using(crate::proofs::Handing::handing_laws))]

ghost use Rattle.std.specs.Prelude.{◌≡◌};
ghost use Rattle.json_model.specs.Texts.{compare_texts};
ghost use Rattle.text.specs.Steps.{compare_steps};
ghost use Rattle.encoding.specs.Encoding.{hands, handed, compared};

use encoding::words::TOO_FEW;

// The order of two texts, and the steps in which it was found.
#[unsafe(no_mangle)]
pub extern "C" fn text_compare(a: &[u8], b: &[u8], out: &mut [u64]) -> u32
    ensures { hands result out.new ≡ handed 2 out.old (compared (compare_texts a.now b.now) (compare_steps a.now b.now)) }
{
    if out.len() < 2 {
        return TOO_FEW;
    }
    encoding::texts::give_comparison(out, text::compare_with_steps(a, b))
}
