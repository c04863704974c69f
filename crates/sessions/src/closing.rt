// Closing a connection and, if it has one, its session.
ghost use Rattle.std.specs.Prelude.{ℕ, ◌+◌, ◌<◌, ◌≤◌, eqb, length, cond, List, [], ◌∷◌, ◌≡◌};
ghost use Rattle.sessions.specs.Closing.{ClosesPlace, closed_server, shut};
ghost use Rattle.model.specs.Bound.{answers_room};
ghost use Rattle.model.specs.Place.{slot_in};
ghost use Rattle.model.specs.Sizes.{no_connection};
ghost use Rattle.model.specs.State.{at, open_exchange, with_connections, with_exchange};
ghost use Rattle.model.specs.Step.{shut_all};
ghost use Rattle.state.specs.Change.{on_rest};
ghost use Rattle.state.specs.Tidy.{Tidy};
ghost use Rattle.state.specs.View.{locks_of, memory, view};
ghost use Rattle.model.specs.Sizes.{session_limit};

use crate::mode::reset_count;
use grants::grant_pass;
use holding::sessions;
use sensing::sense;
use state::fresh::START;
use state::sizes::{CONNECTIONS, NO_CONNECTION, PAYLOAD, SESSION_LIMIT, Strings, Words};
use state::tables;

// Connection x is closed, and what is left to skip of it is dropped.
fn shut_connection(w: &mut Words, x: u64)
    ensures { ((s : List ℕ) → view (memory w.new s) ≡ on_rest (view (memory w.old s)) (shut x))
        × ((s : List ℕ) → Tidy (memory w.old s) → Tidy (memory w.new s)) }
{
    if x >= CONNECTIONS {
        return;
    }
    tables::set_connection(w, x as usize, tables::IS_OPEN, 0);
    tables::set_connection(w, x as usize, tables::REMAINDER, 0);
}

// Slot i's exchange is as of a session that opens, in overlap mode where the word of its mode is 1.
pub fn renew_exchange(w: &mut Words, i: usize, mode: u64)
    requires { i < session_limit }
    ensures { ((s : List ℕ) → view (memory w.new s) ≡ on_rest (view (memory w.old s))
        (λ r. with_exchange r i (open_exchange (eqb mode 1)))) × ((s : List ℕ) → mode ≤ 1 → Tidy (memory w.old s) → Tidy (memory w.new s)) }
{
    tables::set_exchange(w, i, tables::IN_CLEAR, 0);
    tables::set_exchange(w, i, tables::ASKED, 0);
    tables::set_exchange(w, i, tables::AVAILABLE, 0);
    tables::set_exchange(w, i, tables::CLIENT_SIZE, PAYLOAD);
    tables::set_exchange(w, i, tables::OVERLAP, mode);
    tables::set_exchange(w, i, tables::RMT_EXPECTED, 0);
    tables::set_exchange(w, i, tables::NUMBER_EXPECTED, START);
    reset_count(w, i);
}

// The connections of slot i's session are closed.
fn shut_channels(w: &mut Words, i: usize)
    requires { i < session_limit }
    ensures { ((s : List ℕ) → view (memory w.new s) ≡ on_rest (view (memory w.old s))
        (λ r. with_connections r
        (shut_all r.connections ((at (locks_of w.old s).entries i).synchronous
        ∷ cond (eqb (at (locks_of w.old s).entries i).asynchronous no_connection) []
        ((at (locks_of w.old s).entries i).asynchronous ∷ [])))))
        × ((s : List ℕ) → Tidy (memory w.old s) → Tidy (memory w.new s)) }
{
    let x = tables::entry(w, i, tables::SYNCHRONOUS) % 256;
    let y = tables::entry(w, i, tables::ASYNCHRONOUS) % 256;
    shut_connection(w, x);
    if y == NO_CONNECTION {
        return;
    }
    shut_connection(w, y);
}

// Connection c is closed, with its session in slot i if it has one (past the slots: none).
fn close_parts(w: &mut Words, strings: &mut Strings, c: u64, i: usize)
    requires { (s : List ℕ) → slot_in (locks_of w.old s).entries c ≡ i }
    ensures { (view (memory w.new strings.new) ≡ closed_server (view (memory w.old strings.old)) c i)
        × (Tidy (memory w.old strings.old) → Tidy (memory w.new strings.new)) }
{
    if i >= SESSION_LIMIT {
        shut_connection(w, c);
        return;
    }
    shut_channels(w, i);
    renew_exchange(w, i, 0);
    sense::forget(w, i);
    sessions::close_slot(w, strings, i);
}

// The same, and then those that wait are looked at; the place behind the frames.
pub fn close_place(
    w: &mut Words,
    strings: &mut Strings,
    out: &mut [u8],
    at: usize,
    c: u64,
    i: usize,
) -> usize
    requires { (at + answers_room ≤ length out.old) × ((s : List ℕ) → slot_in (locks_of w.old s).entries c ≡ i) }
    ensures { ClosesPlace (view (memory w.old strings.old)) c i (memory w.new strings.new) out.old
        out.new at result × (Tidy (memory w.old strings.old) → Tidy (memory w.new strings.new)) }
{
    close_parts(w, strings, c, i);
    grant_pass::pass_waiting(w, strings, out, at)
}
