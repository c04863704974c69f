// A release that stands takes effect: with the message that it names, or with a device clear.
ghost use Rattle.std.specs.Prelude.{ℕ, ◌+◌, ◌<◌, ◌≤◌, ◌^◌, length, false, List, ◌≡◌};
ghost use Rattle.holding.specs.Outcome.{Met};
ghost use Rattle.locks.specs.Settled.{settled};
ghost use Rattle.holding.specs.Standing.{kind_of};
ghost use Rattle.model.specs.Bound.{answers_room};
ghost use Rattle.model.specs.Locks.Due.{due_now};
ghost use Rattle.model.specs.Locks.LockEvent.{clear, command};
ghost use Rattle.model.specs.Locks.{change, completed, due_any, stands};
ghost use Rattle.model.specs.Sizes.{before_first, session_limit};
ghost use Rattle.model.specs.State;
ghost use Rattle.state.specs.Change.{on_entry, order_with};
ghost use Rattle.state.specs.View.{locks_of, memory, view};

use grants::grant_pass;
use holding::answers::put_answer;
use holding::standing::LockKind;
use holding::{standing, waiting};
use state::sizes::{BEFORE_FIRST, Strings, Words};
use state::tables;

// The release of slot i is answered, its lock is free, and the last message's number becomes n.
fn complete(
    w: &mut Words,
    strings: &mut Strings,
    out: &mut [u8],
    at: usize,
    i: usize,
    kind: LockKind,
    n: u64,
) -> usize
    requires { (i < session_limit) × (at + 17 ≤ length out.old) × (n < 2 ^ 32) }
    ensures { (result ≡ at + 17) × Met (completed (due_now (kind_of kind)) (locks_of w.old strings.old) i n)
        (memory w.old strings.old) (memory w.new strings.new) out.old out.new at result }
{
    let r = put_answer(w, out, at, i, kind.code());
    standing::free_lock(w, strings, i, kind);
    tables::set_order(w, i, tables::LAST_NUMBER, n);
    tables::set_order(w, i, tables::STANDING, 0);
    r
}

// A Data, DataEND or Trigger of number n acts: a release that waits for it takes effect, and those that wait are looked at.
pub fn at_message(
    w: &mut Words,
    strings: &mut Strings,
    out: &mut [u8],
    at: usize,
    i: usize,
    n: u32,
) -> usize
    requires { (i < session_limit) × (at + 17 + answers_room ≤ length out.old) }
    ensures { Met (settled (locks_of w.old strings.old) (command i n)) (memory w.old strings.old)
        (memory w.new strings.new) out.old out.new at result }
{
    match standing::standing_at(w, i) {
        Some(release) if release.number == n => {
            let r = complete(w, strings, out, at, i, release.kind, n as u64);
            grant_pass::grant_waiting(w, strings, out, r)
        }
        _ => {
            tables::set_order(w, i, tables::LAST_NUMBER, n as u64);
            at
        }
    }
}

// The same where no release of slot i stands: the number is noted, nothing else is changed, and nothing is told.
pub fn note_message(w: &mut Words, i: usize, n: u32)
    requires { (i < session_limit) × ((s : List ℕ) → stands (Rattle.model.specs.State.at (locks_of w.old s).entries i).standing ≡ false) }
    ensures { ((s out : List ℕ) (r : ℕ) → Met (settled (locks_of w.old s) (command i n)) (memory w.old s) (memory w.new s)
        out out r r) × ((s : List ℕ) → view (memory w.new s) ≡ on_entry (view (memory w.old s)) i (order_with 0 n)) }
{
    tables::set_order(w, i, tables::LAST_NUMBER, n as u64);
}

// Whatever release of slot i stands takes effect, and no message has acted since.
fn complete_any(w: &mut Words, strings: &mut Strings, out: &mut [u8], at: usize, i: usize) -> usize
    requires { (i < session_limit) × (at + 17 ≤ length out.old) }
    ensures { (result ≤ at + 17)
        × Met (completed (due_any (Rattle.model.specs.State.at (locks_of w.old strings.old).entries i).standing)
        (locks_of w.old strings.old) i before_first) (memory w.old strings.old)
        (memory w.new strings.new) out.old out.new at result }
{
    let Some(release) = standing::standing_at(w, i) else {
        tables::set_order(w, i, tables::LAST_NUMBER, BEFORE_FIRST);
        return at;
    };
    complete(w, strings, out, at, i, release.kind, BEFORE_FIRST)
}

// A device clear: the request of slot i is answered 0, then a release that stands takes effect.
pub fn at_clear(w: &mut Words, strings: &mut Strings, out: &mut [u8], at: usize, i: usize) -> usize
    requires { (i < session_limit) × (at + 17 + answers_room ≤ length out.old) }
    ensures { (result ≤ at + 17 + answers_room) × Met (change (locks_of w.old strings.old) (clear i))
        (memory w.old strings.old) (memory w.new strings.new) out.old out.new at result }
{
    let r = waiting::clear_request(w, strings, out, at, i);
    complete_any(w, strings, out, r, i)
}
