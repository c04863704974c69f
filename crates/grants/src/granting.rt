// The granting rule, and a grant.
ghost use Rattle.std.specs.Prelude.{ℕ, ◌+◌, ◌<◌, ◌≤◌, length, Bool, true, List, ◌≡◌};
ghost use Rattle.grants.specs.Pass.{Granted};
ghost use Rattle.model.specs.Lists.{same};
ghost use Rattle.model.specs.Locks.{give, may_grant, note_grant, one_more};
ghost use Rattle.state.specs.Change.{on_entry};
ghost use Rattle.queue.specs.Requests.{string_at};
ghost use Rattle.state.specs.Tidy.{Tidy};
ghost use Rattle.state.specs.View.{key_of, locks_of, memory, view};
ghost use Rattle.model.specs.Sizes.{session_limit, string_limit};

use holding::answers::put_answer;
use queue::requests;
use shares::sharing;
use state::sizes::{Strings, Words};
use state::{holders, tables};

// The length of the string of slot i's request; 0 asks for the exclusive lock.
fn asked_length(w: &Words, strings: &Strings, i: usize) -> usize
    requires { i < session_limit }
    ensures { (result ≤ string_limit) × (result ≡ length (string_at w.now strings.now i)) }
{
    requests::string_length(w, i)
}

// May slot i be granted what a string of n bytes asks for, which `is_key` says to be the shared one or not? With no string it is the
// exclusive lock. `is_key` is asked last, and only where somebody shares.
fn may_by_rule<F: FnOnce() -> bool>(w: &Words, i: usize, n: usize, is_key: F) -> bool
    requires slot { i < session_limit }
    requires callable { F.IsAlwaysCallable is_key }
    ensures { (s k : List ℕ) → length k ≡ n → ((b : Bool) → F.post is_key b → same (key_of w.now s) k ≡ b)
        → may_grant (locks_of w.now s).entries i k ≡ result }
{
    if !holders::no_other_exclusive(w, i) {
        return false;
    }
    if n == 0 {
        holders::is_sharing(w, i) || holders::nobody_shares(w)
    } else {
        holders::nobody_shares(w) || is_key()
    }
}

// May the request of slot i be granted?
pub fn may_grant(w: &Words, strings: &Strings, i: usize) -> bool
    requires { i < session_limit }
    ensures { may_grant (locks_of w.now strings.now).entries i (string_at w.now strings.now i) ≡ result }
{
    // Asked before the string's length is read: of those that wait most are told here that another session holds the exclusive lock.
    if !holders::no_other_exclusive(w, i) {
        return false;
    }
    let n = asked_length(w, strings, i);
    may_by_rule(w, i, n, || requests::has_key(w, strings, i))
}

// May slot i be granted what a string that is laid nowhere asks for?
pub fn may_give(w: &Words, strings: &Strings, i: usize, string: &[u8]) -> bool
    requires { i < session_limit }
    ensures { may_grant (locks_of w.now strings.now).entries i string.now ≡ result }
{
    may_by_rule(w, i, string.len(), || requests::is_key(w, strings, string))
}

// Slot i gets what the string asks for.
pub fn give_asked(w: &mut Words, strings: &mut Strings, i: usize, string: &[u8])
    requires { (i < session_limit) × (length string.now ≤ string_limit) × (may_grant (locks_of w.old strings.old).entries i string.now ≡ true) }
    ensures { (view (memory w.new strings.new) ≡ on_entry (view (memory w.old strings.old)) i
        (give string.now)) × (Tidy (memory w.old strings.old) → Tidy (memory w.new strings.new)) }
{
    if string.len() == 0 {
        holders::give_exclusive(w, i);
        return;
    }
    sharing::give_key(w, strings, i, string);
}

// Slot i gets the lock that its request asks for.
// Kept: `give_asked` cannot stand for it, since the request's string lies in `strings`, which is lent to be changed.
pub fn grant(w: &mut Words, strings: &mut Strings, i: usize)
    requires { (i < session_limit) × (may_grant (locks_of w.old strings.old).entries i (string_at w.old strings.old i) ≡ true) }
    ensures { (view (memory w.new strings.new) ≡ on_entry (view (memory w.old strings.old)) i
        (give (string_at w.old strings.old i)))
        × (Tidy (memory w.old strings.old) → Tidy (memory w.new strings.new)) }
{
    let n = asked_length(w, strings, i);
    if n == 0 {
        holders::give_exclusive(w, i);
        return;
    }
    sharing::give_shared(w, strings, i, n);
}

// The number of locks granted to a session stays at 2^62.
const GRANTS_LIMIT: u64 = 4611686018427387904;

fn one_more(n: u64) -> u64
    ensures { result ≡ one_more n }
{
    if n < GRANTS_LIMIT { n + 1 } else { n }
}

// A grant to slot i is noted: the clock's reading, and one lock more.
pub fn note_grant(w: &mut Words, i: usize)
    requires { i < session_limit }
    ensures { ((s : List ℕ) → view (memory w.new s) ≡ on_entry (view (memory w.old s)) i
        (note_grant (locks_of w.old s).clock)) × ((s : List ℕ) → Tidy (memory w.old s) → Tidy (memory w.new s)) }
{
    let t = tables::clock(w);
    let n = one_more(tables::order(w, i, tables::GRANTS));
    tables::set_order(w, i, tables::GRANTED_AT, t);
    tables::set_order(w, i, tables::GRANTS, n);
}

// Slot i gets the lock that its request asks for, and is told (1).
pub fn grant_and_answer(
    w: &mut Words,
    strings: &mut Strings,
    out: &mut [u8],
    at: usize,
    i: usize,
) -> usize
    requires { (i < session_limit) × (at + 17 ≤ length out.old) × (may_grant (locks_of w.old strings.old).entries i (string_at w.old strings.old i) ≡ true) }
    ensures { Granted i w.old w.new strings.old strings.new out.old out.new at result }
{
    let r = put_answer(w, out, at, i, 1);
    grant(w, strings, i);
    note_grant(w, i);
    r
}
