// The two lock messages that most programs send, in few steps: an exclusive request while no lock is held, and its release; in both nobody
// waits. All else is the request, or the release, in full: a call. `c` is the asynchronous connection of slot i; the delivery that asks has
// confirmed it.
ghost use Rattle.std.specs.Prelude.{ℕ, ◌+◌, ◌<◌, ◌≤◌, length, true, List, ◌≡◌};
ghost use Rattle.holding.specs.Outcome.{Met};
ghost use Rattle.locks.specs.Quick.{Ended, Free};
ghost use Rattle.locks.specs.Settled.{settled};
ghost use Rattle.model.specs.Bound.{answers_room};
ghost use Rattle.model.specs.Locks.LockEvent.{release, request};
ghost use Rattle.model.specs.Locks.{change};
ghost use Rattle.model.specs.Sizes.{session_limit};
ghost use Rattle.model.specs.State;
ghost use Rattle.state.specs.View.{locks_of, memory};

use crate::release::release_lock;
use crate::request::request_lock;
use grants::granting;
use holding::answers::put_answer_to;
use holding::standing;
use holding::standing::LockKind;
use queue::requests;
use state::holders;
use state::sizes::{Strings, Words};

// Is no lock held, waits nobody, and stands no release of slot i?
fn is_free(w: &Words, i: usize) -> bool
    requires { i < session_limit }
    ensures { result ≡ true → (s : List ℕ) → Free (locks_of w.now s) i }
{
    !standing::stands(w, i)
        && holders::nobody_exclusive(w)
        && holders::nobody_shares(w)
        && requests::waiting_count(w) == 0
}

// A request of slot i.
// Kept: the few steps stand beside `request_lock`, so that the way of the message that is mostly sent has no call in it.
pub fn request_quickly(
    w: &mut Words,
    strings: &mut Strings,
    out: &mut [u8],
    at: usize,
    c: u8,
    i: usize,
    timeout: u32,
    string: &[u8],
) -> usize
    requires { (i < session_limit) × (at + 17 ≤ length out.old) × ((s : List ℕ) → (Rattle.model.specs.State.at (locks_of w.old s).entries i).asynchronous ≡ c) }
    ensures { Met (change (locks_of w.old strings.old) (request i timeout string.now))
        (memory w.old strings.old) (memory w.new strings.new) out.old out.new at result }
{
    if string.is_empty() && is_free(w, i) {
        let r = put_answer_to(w, out, at, c, i, 1);
        holders::give_exclusive(w, i);
        granting::note_grant(w, i);
        return r;
    }
    request_lock(w, strings, out, at, i, timeout, string)
}

// Holds slot i the exclusive lock, names a release of it the last message, and waits nobody?
fn ends_at_once(w: &Words, i: usize, n: u32) -> bool
    requires { i < session_limit }
    ensures { result ≡ true → (s : List ℕ) → Ended (locks_of w.now s) i n }
{
    !standing::stands(w, i)
        && holders::is_exclusive(w, i)
        && standing::is_last(w, i, n)
        && requests::waiting_count(w) == 0
}

// A release of slot i that names message n.
// Kept: the few steps stand beside `release_lock`, for the same reason.
pub fn release_quickly(
    w: &mut Words,
    strings: &mut Strings,
    out: &mut [u8],
    at: usize,
    c: u8,
    i: usize,
    n: u32,
) -> usize
    requires { (i < session_limit) × (at + 17 + answers_room ≤ length out.old) × ((s : List ℕ) → (Rattle.model.specs.State.at (locks_of w.old s).entries i).asynchronous ≡ c) }
    ensures { Met (settled (locks_of w.old strings.old) (release i n)) (memory w.old strings.old)
        (memory w.new strings.new) out.old out.new at result }
{
    if ends_at_once(w, i, n) {
        let r = put_answer_to(w, out, at, c, i, LockKind::Exclusive.code());
        holders::drop_exclusive(w, i);
        return r;
    }
    release_lock(w, strings, out, at, i, n)
}
