// What AsyncLockInfo tells.
ghost use Rattle.std.specs.Prelude.{ℕ, ◌<◌, ◌≤◌, cond, List, ◌≡◌};
ghost use Rattle.model.specs.Acts.{holder};
ghost use Rattle.model.specs.Lists.{all, tally};
ghost use Rattle.model.specs.Locks.{no_exclusive};
ghost use Rattle.model.specs.State.{at};
ghost use Rattle.state.specs.View.{locks_of};
ghost use Rattle.model.specs.Sizes.{session_limit};

use state::holders;
use state::sizes::{SESSION_LIMIT, Words};

// The control code: 1 if the exclusive lock is held.
pub fn exclusive_code(w: &Words) -> u8
    ensures { (s : List ℕ) → cond (all no_exclusive (locks_of w.now s).entries) 0 1 ≡ result }
{
    u8::from(!holders::nobody_exclusive(w))
}

pub fn holds_any(w: &Words, i: usize) -> bool
    requires { i < session_limit }
    ensures { (s : List ℕ) → holder (at (locks_of w.now s).entries i) ≡ result }
{
    holders::is_exclusive(w, i) || holders::is_sharing(w, i)
}

// The parameter: the sessions that hold any lock, each once.
pub fn holder_count(w: &Words) -> u32
    ensures { (result ≤ session_limit) × ((s : List ℕ) → tally holder (locks_of w.now s).entries ≡ result) }
{
    let mut n = 0;
    for k in 0..SESSION_LIMIT {
        if holds_any(w, k) {
            n += 1;
        }
    }
    n
}
