// Giving a lock back.
ghost use Rattle.std.specs.Prelude.{ℕ, ◌+◌, ◌<◌, ◌≤◌, eqb, length, List, ◌≡◌};
ghost use Rattle.holding.specs.Outcome.{Met};
ghost use Rattle.locks.specs.Release.{ruled_by};
ghost use Rattle.locks.specs.Settled.{settled};
ghost use Rattle.model.specs.Bound.{answers_room};
ghost use Rattle.model.specs.Locks.LockEvent.{release};
ghost use Rattle.model.specs.Locks.{releasing_of};
ghost use Rattle.model.specs.Sizes.{session_limit};
ghost use Rattle.model.specs.State.{at};
ghost use Rattle.state.specs.View.{locks_of, memory};

use grants::grant_pass;
use holding::answers::put_answer;
use holding::standing;
use holding::standing::LockKind;
use state::sizes::{Strings, Words};
use state::{holders, tables};

// The lock that a release of slot i frees: exclusive first, then shared; none where none is held or a release stands.
fn freed_kind(w: &Words, i: usize) -> Option<LockKind>
    requires { i < session_limit }
    ensures { (s : List ℕ) (n : ℕ) → releasing_of (at (locks_of w.now s).entries i) n ≡ ruled_by result
        (eqb (at (locks_of w.now s).entries i).last n) }
{
    if standing::stands(w, i) {
        None
    } else if holders::is_exclusive(w, i) {
        Some(LockKind::Exclusive)
    } else if holders::is_sharing(w, i) {
        Some(LockKind::Shared)
    } else {
        None
    }
}

// A release that names message n: 3, or at once where n is the last message, and then those that wait are looked at; else it stands.
pub fn release_lock(
    w: &mut Words,
    strings: &mut Strings,
    out: &mut [u8],
    at: usize,
    i: usize,
    n: u32,
) -> usize
    requires { (i < session_limit) × (at + 17 + answers_room ≤ length out.old) }
    ensures { Met (settled (locks_of w.old strings.old) (release i n)) (memory w.old strings.old)
        (memory w.new strings.new) out.old out.new at result }
{
    let Some(kind) = freed_kind(w, i) else {
        return put_answer(w, out, at, i, 3);
    };
    if standing::is_last(w, i, n) {
        let r = put_answer(w, out, at, i, kind.code());
        standing::free_lock(w, strings, i, kind);
        return grant_pass::grant_waiting(w, strings, out, r);
    }
    let word = standing::standing_word(kind, n);
    tables::set_order(w, i, tables::STANDING, word);
    at
}
