// The grant pass: after a lock was freed, those that wait are looked at once.
ghost use Rattle.std.specs.Prelude.{◌+◌, ◌<◌, ◌≤◌, length};
ghost use Rattle.holding.specs.Outcome.{Met};
ghost use Rattle.model.specs.Bound.{answers_room};
ghost use Rattle.model.specs.Locks.{grant_pass};
ghost use Rattle.state.specs.View.{locks_of, memory};

use crate::granting;
use queue::requests;
use shares::leaving;
use state::sizes::{Strings, Words};

// Oldest first, each that may be granted is, and is told; the others go on waiting. It has two callers, so that it stays a call of its own
// and `grant_waiting` is copied to where it is called.
pub fn pass_waiting(w: &mut Words, strings: &mut Strings, out: &mut [u8], start: usize) -> usize
    requires { start + answers_room ≤ length out.old }
    ensures { Met (grant_pass (locks_of w.old strings.old)) (memory w.old strings.old)
        (memory w.new strings.new) out.old out.new start result }
{
    let n = requests::waiting_count(w);
    let mut at = start;
    let mut k = 0;
    for j in 0..n {
        let x = requests::waiting_slot(w, j);
        if granting::may_grant(w, strings, x) {
            at = granting::grant_and_answer(w, strings, out, at, x);
        } else {
            requests::swap_waiting(w, j, k);
            k += 1;
        }
    }
    leaving::keep_first(w, strings, k);
    at
}

// The same; mostly nobody waits, and nothing is done.
pub fn grant_waiting(w: &mut Words, strings: &mut Strings, out: &mut [u8], start: usize) -> usize
    requires { start + answers_room ≤ length out.old }
    ensures { Met (grant_pass (locks_of w.old strings.old)) (memory w.old strings.old)
        (memory w.new strings.new) out.old out.new start result }
{
    if requests::waiting_count(w) == 0 {
        return start;
    }
    pass_waiting(w, strings, out, start)
}
