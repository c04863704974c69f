// One store into the lent words.
ghost use Rattle.std.specs.Prelude.{◌<◌, length, set, ◌≡◌};
ghost use Rattle.state.specs.Layout.{WORDS};

use crate::sizes::Words;

// The word at a place becomes v, and no other changes.
pub fn store(w: &mut Words, at: usize, v: u64)
    requires { at < WORDS }
    ensures { w.new ≡ set w.old at v }
{
    w[at] = v;
}
