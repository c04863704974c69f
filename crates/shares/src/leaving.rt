// Requests that leave: the queue is cut short, and of those that left nothing stays.
ghost use Rattle.std.specs.Prelude.{◌+◌, ◌<◌, ◌≤◌, length, take, ◌≡◌};
ghost use Rattle.model.specs.Sizes.{session_limit};
ghost use Rattle.state.specs.Layout.{COUNT, STRINGS, WORDS};
ghost use Rattle.queue.specs.Leaving.{Left, Members, Still};
ghost use Rattle.queue.specs.Queue.{on_waiting};
ghost use Rattle.queue.specs.Requests.{count_of};
ghost use Rattle.state.specs.Tidy.{Tidy, TidyOver};
ghost use Rattle.state.specs.View.{memory, view, word};

use crate::wiping::wipe_request;
use queue::requests::least;
use state::holders::{is_in, put_in};
use state::layout::{COUNT, QUEUE};
use state::sizes::{SESSION_LIMIT, SESSIONS, Strings, Words};

// The slots of the first n places, a bit each.
#[tactic(auto, using(queue::specs::Leaving::no_members, queue::specs::Leaving::members_more), unfolding(state::specs::View::slot_at))]
fn waiting_set(w: &Words, n: usize) -> u64
    requires { n ≤ session_limit }
    ensures { Members w.now n result }
{
    let mut stay = 0;
    for j in 0..n {
        let x = (w[QUEUE + j] % SESSIONS) as usize;
        stay = put_in(stay, x);
    }
    stay
}

// A place behind the count is wiped, and the request of its slot with it if that waits no more.
#[tactic(auto, using(queue::specs::Leaving::kept_left, queue::specs::Leaving::wiped_left), unfolding(state::specs::View::slot_at))]
fn leave_place(w: &mut Words, strings: &mut Strings, p: usize, stay: u64)
    requires { (p < session_limit) × (count_of w.old ≤ p) × Members w.old (count_of w.old) stay }
    ensures { Left w.old strings.old w.new strings.new p }
{
    let x = (w[QUEUE + p] % SESSIONS) as usize;
    if !is_in(stay, x) {
        wipe_request(w, strings, x);
    }
    w[QUEUE + p] = 0;
}

// The places from n to m, behind the count, which is n.
#[tactic(auto, using(queue::specs::Leaving::members_left, queue::specs::Leaving::over_tidy))]
fn leave_places(w: &mut Words, strings: &mut Strings, n: usize, m: usize, stay: u64)
    requires { (word w.old COUNT ≡ n) × (n ≤ m) × (m ≤ session_limit) × Members w.old n stay }
    ensures { (view (memory w.new strings.new) ≡ view (memory w.old strings.old))
        × (TidyOver (Still n n m) (memory w.old strings.old) → Tidy (memory w.new strings.new)) }
{
    for p in n..m {
        leave_place(w, strings, p, stay);
    }
}

// Only the first n go on waiting.
#[tactic(auto, using(queue::specs::Queue::cut_short, queue::specs::Leaving::kept_all, queue::specs::Leaving::kept_some))]
pub fn keep_first(w: &mut Words, strings: &mut Strings, n: usize)
    requires { n ≤ count_of w.old }
    ensures { (view (memory w.new strings.new) ≡ on_waiting (view (memory w.old strings.old)) (take n))
        × (Tidy (memory w.old strings.old) → Tidy (memory w.new strings.new)) }
{
    let m = least(w[COUNT], SESSION_LIMIT);
    w[COUNT] = n as u64;
    // Nobody leaves.
    if n == m {
        return;
    }
    let stay = waiting_set(w, n);
    leave_places(w, strings, n, m, stay);
}
