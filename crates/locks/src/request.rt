// Asking for a lock.
ghost use Rattle.std.specs.Prelude.{ℕ, ◌+◌, ◌<◌, ◌≤◌, eqb, length, ◌||◌, true, List, [], ◌++◌, ◌∷◌, ◌≡◌};
ghost use Rattle.locks.specs.Asking.{decided, unable};
ghost use Rattle.holding.specs.Outcome.{Met};
ghost use Rattle.model.specs.Lists.{all};
ghost use Rattle.model.specs.Locks.LockEvent.{request};
ghost use Rattle.model.specs.Locks.{change, elsewhere, holds, no_place};
ghost use Rattle.model.specs.State.{at};
ghost use Rattle.queue.specs.Queue.{on_waiting};
ghost use Rattle.state.specs.Tidy.{Tidy};
ghost use Rattle.state.specs.View.{locks_of, memory, view};
ghost use Rattle.model.specs.Sizes.{session_limit, string_limit};

use grants::granting;
use holding::answers::put_answer;
use holding::standing;
use queue::requests;
use state::sizes::{SESSION_LIMIT, STRING_LIMIT, Strings, Words};
use state::{holders, tables};

// Does slot i hold the kind that a string of n bytes asks for?
fn holds_kind(w: &Words, i: usize, n: usize) -> bool
    requires { i < session_limit }
    ensures { (s k : List ℕ) → length k ≡ n → holds k (at (locks_of w.now s).entries i) ≡ result }
{
    if n == 0 {
        holders::is_exclusive(w, i)
    } else {
        holders::is_sharing(w, i)
    }
}

// Does no request of slot i wait?
fn is_idle(w: &Words, i: usize) -> bool
    ensures { (s : List ℕ) → all (elsewhere i) (locks_of w.now s).waiting ≡ result }
{
    if requests::nobody_waits(w) {
        return true;
    }
    for j in 0..requests::waiting_count(w) {
        if requests::waiting_slot(w, j) == i {
            return false;
        }
    }
    true
}

// Is a request with a string of n bytes answered 3?
fn is_invalid(w: &Words, i: usize, n: usize) -> bool
    requires { i < session_limit }
    ensures { (s k : List ℕ) → length k ≡ n → unable (locks_of w.now s) i k ≡ result }
{
    n > STRING_LIMIT || standing::stands(w, i) || holds_kind(w, i, n) || !is_idle(w, i)
}

// Can a request not wait?
fn cannot_wait(w: &Words, timeout: u32) -> bool
    ensures { (s : List ℕ) → (eqb timeout 0 || no_place (locks_of w.now s).waiting) ≡ result }
{
    timeout == 0 || requests::waiting_count(w) >= SESSION_LIMIT
}

// The request of slot i waits until the clock and the timeout: only now its string is laid into its place.
fn wait(w: &mut Words, strings: &mut Strings, i: usize, timeout: u32, string: &[u8])
    requires { (i < session_limit) × (length string.now ≤ string_limit) × (length (locks_of w.old strings.old).waiting < session_limit)
        × (all (elsewhere i) (locks_of w.old strings.old).waiting ≡ true) }
    ensures { (view (memory w.new strings.new) ≡ on_waiting (view (memory w.old strings.old))
        (λ x. x ++ (record { slot = i; deadline = (locks_of w.old strings.old).clock + timeout; string = string.now } ∷ [])))
        × (Tidy (memory w.old strings.old) → Tidy (memory w.new strings.new)) }
{
    let t = tables::clock(w) + timeout as u64;
    requests::put_request(w, strings, i, t, string);
}

// The request of slot i, decided as it stands in the input: 1 if it may be granted, 0 if it cannot wait, else it waits.
fn decide(
    w: &mut Words,
    strings: &mut Strings,
    out: &mut [u8],
    at: usize,
    i: usize,
    timeout: u32,
    string: &[u8],
) -> usize
    requires { (i < session_limit) × (at + 17 ≤ length out.old) × (length string.now ≤ string_limit) × (all (elsewhere i) (locks_of w.old strings.old).waiting ≡ true) }
    ensures { Met (decided (locks_of w.old strings.old) i timeout string.now)
        (memory w.old strings.old) (memory w.new strings.new) out.old out.new at result }
{
    if granting::may_give(w, strings, i, string) {
        let r = put_answer(w, out, at, i, 1);
        granting::give_asked(w, strings, i, string);
        granting::note_grant(w, i);
        return r;
    }
    if cannot_wait(w, timeout) {
        return put_answer(w, out, at, i, 0);
    }
    wait(w, strings, i, timeout, string);
    at
}

// A request of slot i. The order of the answers is the rule's: 3, 1, 0, or it waits.
pub fn request_lock(
    w: &mut Words,
    strings: &mut Strings,
    out: &mut [u8],
    at: usize,
    i: usize,
    timeout: u32,
    string: &[u8],
) -> usize
    requires { (i < session_limit) × (at + 17 ≤ length out.old) }
    ensures { Met (change (locks_of w.old strings.old) (request i timeout string.now))
        (memory w.old strings.old) (memory w.new strings.new) out.old out.new at result }
{
    if is_invalid(w, i, string.len()) {
        return put_answer(w, out, at, i, 3);
    }
    decide(w, strings, out, at, i, timeout, string)
}
