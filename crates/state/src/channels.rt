// Which session has a connection: it stands in the slot's row, and the slot in the connection's home. A connection that both name is the session's.
ghost use Rattle.std.specs.Prelude.{ℕ, ◌*◌, ◌+◌, ◌<◌, length, set, List, ◌≡◌};
ghost use Rattle.model.specs.Locks.{joined, with_row};
ghost use Rattle.model.specs.Sizes.{connection_limit, no_connection, session_limit};
ghost use Rattle.state.specs.Change.{on_entry};
ghost use Rattle.state.specs.Channels.{Unshown};
ghost use Rattle.state.specs.Closing.{Cleared, LeftHome};
ghost use Rattle.state.specs.Layout.{ENTRIES, ENTRY, WORDS};
ghost use Rattle.state.specs.Tidy.{Tidy};
ghost use Rattle.state.specs.View.{field_of, home_at, memory, row_word, view};

use crate::sizes::{CONNECTIONS, NO_CONNECTION, Words};
use crate::tables::{ASYNCHRONOUS, NUMBER, SYNCHRONOUS};
use crate::words::store;
use crate::{layout, tables};

fn set_row(w: &mut Words, i: usize, f: usize, v: u64)
    requires { (i < session_limit) × (f < 3) }
    ensures { w.new ≡ set w.old (ENTRIES + i * ENTRY + f) v }
{
    store(w, layout::ENTRIES + i * layout::ENTRY + f, v);
}

fn set_home(w: &mut Words, c: u64, v: u64)
    requires { c < connection_limit }
    ensures { w.new ≡ set w.old (home_at c) v }
{
    store(
        w,
        layout::CONNECTIONS + c as usize * layout::CONNECTION + layout::HOME,
        v,
    );
}

// Session n opens in slot i over connection c.
pub fn open_session(w: &mut Words, i: usize, n: u64, c: u64)
    requires { (i < session_limit) × (n ≡ 0 → ⊥) × (c < connection_limit) × Unshown w.old c }
    ensures { ((s : List ℕ) → view (memory w.new s) ≡ on_entry (view (memory w.old s)) i (with_row n c no_connection))
        × ((s : List ℕ) → row_word w.old i 0 ≡ 0 → Tidy (memory w.old s) → Tidy (memory w.new s)) }
{
    set_row(w, i, NUMBER, n);
    set_row(w, i, SYNCHRONOUS, c);
    set_row(w, i, ASYNCHRONOUS, NO_CONNECTION);
    set_home(w, c, tables::home_in(i, SYNCHRONOUS));
}

// Connection c is the second of slot i, which is live.
pub fn join_session(w: &mut Words, i: usize, c: u64)
    requires { (i < session_limit) × (row_word w.old i 0 ≡ 0 → ⊥) × (c < connection_limit) × Unshown w.old c }
    ensures { ((s : List ℕ) → view (memory w.new s) ≡ on_entry (view (memory w.old s)) i (joined c))
        × ((s : List ℕ) → field_of w.old i 2 ≡ no_connection → Tidy (memory w.old s) → Tidy (memory w.new s)) }
{
    set_row(w, i, ASYNCHRONOUS, c);
    set_home(w, c, tables::home_in(i, ASYNCHRONOUS));
}

// The connection at a place in the row of slot i, which is free, has no home there any more.
fn leave_home(w: &mut Words, i: usize, f: usize)
    requires { (i < session_limit) × (0 < f) × (f < 3) × (row_word w.old i 0 ≡ 0) }
    ensures { ((s : List ℕ) → view (memory w.new s) ≡ view (memory w.old s)) × (row_word w.new i 0 ≡ 0) × LeftHome w.old w.new i f }
{
    let c = tables::row(w, i, f);
    if c >= CONNECTIONS {
        return;
    }
    if tables::home(w, c) != tables::home_in(i, f) {
        return;
    }
    set_home(w, c, 0);
}

// The place is 0 again, as in a fresh server.
fn clear_place(w: &mut Words, i: usize, f: usize)
    requires { (i < session_limit) × (0 < f) × (f < 3) × (row_word w.old i 0 ≡ 0) }
    ensures { ((s : List ℕ) → view (memory w.new s) ≡ view (memory w.old s)) × (row_word w.new i 0 ≡ 0) × Cleared w.old w.new i f }
{
    leave_home(w, i, f);
    set_row(w, i, f, 0);
}

// The session of slot i closes: nothing of its row and its connections' homes is left.
pub fn close_session(w: &mut Words, i: usize)
    requires { i < session_limit }
    ensures { ((s : List ℕ) → view (memory w.new s) ≡ on_entry (view (memory w.old s)) i (with_row 0 no_connection no_connection))
        × ((s : List ℕ) → Tidy (memory w.old s) → Tidy (memory w.new s)) }
{
    set_row(w, i, NUMBER, 0);
    clear_place(w, i, SYNCHRONOUS);
    clear_place(w, i, ASYNCHRONOUS);
}
