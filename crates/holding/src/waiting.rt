// The queue of those that wait, swept: requests whose deadline is reached, or the request of one slot, leave it.
ghost use Rattle.std.specs.Prelude.{ℕ, ◌+◌, ◌<◌, ◌≤◌, length, List, ◌≡◌};
ghost use Rattle.holding.specs.Outcome.{Met, ends, spot};
ghost use Rattle.holding.specs.Sweep.{turned_away};
ghost use Rattle.holding.specs.Waiting.{stays, swept};
ghost use Rattle.model.specs.Bound.{answers_room};
ghost use Rattle.model.specs.Lists.{keep};
ghost use Rattle.model.specs.Locks.LockEvent.{reading};
ghost use Rattle.model.specs.Locks.{change, elsewhere, refuse};
ghost use Rattle.queue.specs.Queue.{on_waiting};
ghost use Rattle.state.specs.Tidy.{Tidy};
ghost use Rattle.state.specs.View.{locks_of, memory, request_at, view};
ghost use Rattle.model.specs.Sizes.{session_limit};

use crate::answers::put_answer;
use queue::requests;
use shares::leaving::keep_first;
use state::sizes::{Strings, Words};
use state::tables;

// The requests that leave the queue: that of a slot, or those whose deadline is a reading of the clock or before.
#[derive(Clone, Copy)]
enum Leaving {
    OfSlot(usize),
    By(u64),
}

// Does the request of slot x stay?
fn may_stay(w: &Words, x: usize, leaving: Leaving) -> bool
    requires { x < session_limit }
    ensures { (s : List ℕ) → stays leaving (request_at w.now s x) ≡ result }
{
    match leaving {
        Leaving::OfSlot(i) => x != i,
        Leaving::By(t) => requests::deadline_of(w, x) > t,
    }
}

// Those that do not stay are answered 0, oldest first.
fn answer_leaving(w: &Words, out: &mut [u8], start: usize, leaving: Leaving) -> usize
    requires { start + answers_room ≤ length out.old }
    ensures { (s : List ℕ) → ends (refuse (locks_of w.now s).entries (stays leaving) (locks_of w.now s).waiting) out.old start ≡ spot out.new result }
{
    let n = requests::waiting_count(w);
    let mut at = start;
    for j in 0..n {
        let x = requests::waiting_slot(w, j);
        if !may_stay(w, x, leaving) {
            at = put_answer(w, out, at, x, 0);
        }
    }
    at
}

// Those that stay go on waiting, in their order.
fn keep_staying(w: &mut Words, strings: &mut Strings, leaving: Leaving)
    ensures { (view (memory w.new strings.new) ≡ on_waiting (view (memory w.old strings.old))
        (keep (stays leaving))) × (Tidy (memory w.old strings.old) → Tidy (memory w.new strings.new)) }
{
    let n = requests::waiting_count(w);
    let mut k = 0;
    for j in 0..n {
        let x = requests::waiting_slot(w, j);
        if may_stay(w, x, leaving) {
            requests::swap_waiting(w, j, k);
            k += 1;
        }
    }
    keep_first(w, strings, k);
}

// What does not stay is answered 0 and leaves the queue.
fn sweep(w: &mut Words, strings: &mut Strings, out: &mut [u8], at: usize, leaving: Leaving) -> usize
    requires { at + answers_room ≤ length out.old }
    ensures { Met (swept (locks_of w.old strings.old) leaving) (memory w.old strings.old)
        (memory w.new strings.new) out.old out.new at result }
{
    let r = answer_leaving(w, out, at, leaving);
    // Nobody was answered, so all stay.
    if r == at {
        return r;
    }
    keep_staying(w, strings, leaving);
    r
}

// The request of slot i is answered 0.
pub fn clear_request(
    w: &mut Words,
    strings: &mut Strings,
    out: &mut [u8],
    at: usize,
    i: usize,
) -> usize
    requires { (i < session_limit) × (at + answers_room ≤ length out.old) }
    ensures { Met (turned_away (locks_of w.old strings.old) i) (memory w.old strings.old)
        (memory w.new strings.new) out.old out.new at result }
{
    sweep(w, strings, out, at, Leaving::OfSlot(i))
}

// The clock reads t: a request whose deadline is t or before is answered 0.
pub fn expire(w: &mut Words, strings: &mut Strings, out: &mut [u8], at: usize, t: u64) -> usize
    requires { (t < 9223372036854775808) × (at + answers_room ≤ length out.old) }
    ensures { Met (change (locks_of w.old strings.old) (reading t)) (memory w.old strings.old)
        (memory w.new strings.new) out.old out.new at result }
{
    tables::set_clock(w, t);
    sweep(w, strings, out, at, Leaving::By(t))
}

// The request of slot i leaves the queue unanswered.
pub fn drop_request(w: &mut Words, strings: &mut Strings, i: usize)
    requires { i < session_limit }
    ensures { (view (memory w.new strings.new) ≡ on_waiting (view (memory w.old strings.old))
        (keep (elsewhere i))) × (Tidy (memory w.old strings.old) → Tidy (memory w.new strings.new)) }
{
    keep_staying(w, strings, Leaving::OfSlot(i));
}
