// Who may use the instrument now.
ghost use Rattle.std.specs.Prelude.{ℕ, ◌<◌, List, ◌≡◌};
ghost use Rattle.model.specs.Locks.{access};
ghost use Rattle.state.specs.View.{locks_of};
ghost use Rattle.model.specs.Sizes.{session_limit};

use state::holders;
use state::sizes::Words;

// The exclusive holder alone; with none, those that share; with no locks, everyone. Mostly there are none: that is asked first.
pub fn has_access(w: &Words, i: usize) -> bool
    requires { i < session_limit }
    ensures { (s : List ℕ) → access (locks_of w.now s).entries i ≡ result }
{
    if !holders::nobody_exclusive(w) {
        return holders::is_exclusive(w, i);
    }
    holders::nobody_shares(w) || holders::is_sharing(w, i)
}
