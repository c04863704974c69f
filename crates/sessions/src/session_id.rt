// The SessionID of a session that opens: the next after the last issued, from 65,535 back to 1, passing over live ones.
ghost use Rattle.std.specs.Prelude.{ℕ, ◌≤◌, List, ◌≡◌};
ghost use Rattle.model.specs.Locks.{issued};
ghost use Rattle.model.specs.Sizes.{session_limit};
ghost use Rattle.state.specs.View.{locks_of, rest_of};

use state::sizes::{SESSION_LIMIT, SESSIONS, Words};
use state::{search, tables};

// At most SESSION_LIMIT are live, so one number more that is tried is free without a look.
pub fn next_session_id(w: &Words) -> u64
    ensures { (1 ≤ result) × (result ≤ 65535) × ((s : List ℕ) → issued session_limit 0 (locks_of w.now s).entries (rest_of w.now).last_issued ≡ result) }
{
    let last = tables::single(w, tables::LAST) % 65536;
    for k in 0..SESSIONS {
        let n = (last + k) % 65535 + 1;
        if search::slot_of_number(w, n) >= SESSION_LIMIT {
            return n;
        }
    }
    (last + SESSIONS) % 65535 + 1
}
