// A layout of which faults 2 and 3 are ruled out: its sizes are within their limits, and it has as many bytes as they say. What is left to
// judge.
ghost use Rattle.std.specs.Prelude.{◌+◌, ◌*◌, ◌≡◌, false, length};
ghost use Rattle.table.specs.Format.{span_of};
ghost use Rattle.table.specs.Refusals.{oversize};

use crate::format::{Pair, Sizes, pair_of, words_within};

#[derive(Clone, Copy)]
pub struct Layout<'a> {
    pub bytes: &'a [u8],
    pub sizes: Sizes,
    pub ghost small: { oversize sizes ≡ false },
    pub ghost whole: { length bytes.now ≡ 10 + 4 * span_of sizes },
}

impl<'a> Layout<'a> {
    ghost use Rattle.std.specs.Prelude.{◌<◌};
    ghost use Rattle.table.specs.Format.{pair_at};

    // The i-th pair, if there is one: no index is tested.
    pub fn pair(self, i: usize) -> Pair
        requires { i < self.sizes.pairs }
        ensures { result ≡ pair_at self.entry.bytes.now self.entry.sizes i }
    {
        let s = self.sizes;
        let from = s.facts as usize + s.rules as usize + s.entries as usize;
        pair_of(words_within(self.bytes, s, from + i))
    }
}
