// The slots of the table as sessions open and close. None of this is answered by a lock message.
ghost use Rattle.std.specs.Prelude.{ℕ, ◌<◌, List, ◌≡◌};
ghost use Rattle.holding.specs.Outcome.{Quiet};
ghost use Rattle.holding.specs.Sessions.{without_locks};
ghost use Rattle.model.specs.Locks.LockEvent.{close, enter, join};
ghost use Rattle.model.specs.Locks.{change};
ghost use Rattle.state.specs.Change.{on_entry};
ghost use Rattle.state.specs.Channels.{Unshown};
ghost use Rattle.state.specs.Tidy.{Tidy};
ghost use Rattle.state.specs.View.{field_of, locks_of, memory, row_word, view};
ghost use Rattle.model.specs.Sizes.{connection_limit, no_connection, session_limit};

use crate::waiting::drop_request;
use shares::sharing;
use state::sizes::{BEFORE_FIRST, Strings, Words};
use state::{channels, holders, tables};

// A slot that opens or closes has no locks, no message acted in it, no release stands, and no lock was granted to it.
fn drop_locks(w: &mut Words, strings: &mut Strings, i: usize)
    requires { i < session_limit }
    ensures { (view (memory w.new strings.new) ≡ on_entry (view (memory w.old strings.old)) i without_locks)
        × (Tidy (memory w.old strings.old) → Tidy (memory w.new strings.new)) }
{
    tables::set_order(w, i, tables::LAST_NUMBER, BEFORE_FIRST);
    tables::set_order(w, i, tables::STANDING, 0);
    tables::set_order(w, i, tables::GRANTED_AT, 0);
    tables::set_order(w, i, tables::GRANTS, 0);
    holders::drop_exclusive(w, i);
    sharing::leave_sharers(w, strings, i);
}

// Session n opens in slot i, which is free, over connection c, which no session has.
pub fn enter_slot(w: &mut Words, strings: &mut Strings, i: usize, n: u64, c: u64)
    requires { (i < session_limit) × (n ≡ 0 → ⊥) × (c < connection_limit) × Unshown w.old c × (row_word w.old i 0 ≡ 0) }
    ensures { Quiet (change (locks_of w.old strings.old) (enter i n c)) (memory w.old strings.old) (memory w.new strings.new) }
{
    channels::open_session(w, i, n, c);
    drop_locks(w, strings, i);
}

// Connection c, which no session has, is the second of slot i, which is live and has one alone.
pub fn join_slot(w: &mut Words, i: usize, c: u64)
    requires { (i < session_limit) × (row_word w.old i 0 ≡ 0 → ⊥) × (c < connection_limit) × Unshown w.old c × (field_of w.old i 2 ≡ no_connection) }
    ensures { (s : List ℕ) → Quiet (change (locks_of w.old s) (join i c)) (memory w.old s) (memory w.new s) }
{
    channels::join_session(w, i, c);
}

// The session of slot i closes: its locks, its waiting request and a release that stands go, and nobody is told.
pub fn close_slot(w: &mut Words, strings: &mut Strings, i: usize)
    requires { i < session_limit }
    ensures { Quiet (change (locks_of w.old strings.old) (close i)) (memory w.old strings.old) (memory w.new strings.new) }
{
    channels::close_session(w, i);
    drop_locks(w, strings, i);
    drop_request(w, strings, i);
}
