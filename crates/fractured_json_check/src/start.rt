// The walk from the root, with links for as many keys as a document of its length is likely to have. Short documents do
// not pay for links that they cannot use; a document with more keys than links is checked by scanning.
ghost use Rattle.std.specs.Prelude.{◌≡◌, ◌^◌, ◌<◌};
ghost use Rattle.fractured_json_check.specs.Table.{walked, told_walk};

use crate::document::Document;
use json_model::Refusal;
use json_model::limits::DEEPEST;

// Documents below these lengths are short, and of middle length.
const SHORT: usize = 256;

const MIDDLE: usize = 2048;

impl Document<'_> {
    // The walk with N links.
    #[tactic(auto, using(crate::proofs::Checks::root_laws))]
    fn walk_with<const N: usize>(
        &self,
        keys: &mut [u32],
        count: &mut usize,
    ) -> Result<usize, Refusal>
        requires small { N < 2 ^ 32 }
        requires first { count.old ≡ 0 }
        ensures { told_walk result count.new keys.new ≡ walked self.now.bytes.now self.now.names keys.old }
    {
        let mut links = [0u16; N];
        self.contents(keys, &mut links, count, 3, 1, false, DEEPEST)
    }

    pub(crate) fn walk_root(&self, keys: &mut [u32], count: &mut usize) -> Result<usize, Refusal>
        requires { count.old ≡ 0 }
        ensures { told_walk result count.new keys.new ≡ walked self.now.bytes.now self.now.names keys.old }
    {
        let len = self.bytes.len();
        if len < SHORT {
            return self.walk_with::<128>(keys, count);
        }
        if len < MIDDLE {
            return self.walk_with::<1024>(keys, count);
        }
        self.walk_with::<8192>(keys, count)
    }
}
