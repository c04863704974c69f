// Lock requests: a row and a place for a string for each slot, and the queue of those that wait, oldest first.
ghost use Rattle.std.specs.Prelude.{ℕ, ◌*◌, ◌+◌, ◌<◌, ◌≤◌, min, eqb, drop, get_or, length, set, take, List, [], ◌++◌, ◌∷◌, ◌≡◌};
ghost use Rattle.model.specs.Lists.{same};
ghost use Rattle.queue.specs.Queue.{no_request, on_waiting};
ghost use Rattle.queue.specs.Requests.{Idle, count_of, string_at};
ghost use Rattle.state.specs.Tidy.{Tidy};
ghost use Rattle.state.specs.View.{key_of, locks_of, memory, request_at, view};
ghost use Rattle.wire.specs.Splice.{splice};
ghost use Rattle.model.specs.Sizes.{list_limit, session_limit, string_limit};
ghost use Rattle.state.specs.Layout.{STRINGS, WORDS};

use crate::same::same_strings;
use state::layout::{COUNT, KEY, QUEUE, REQUEST, REQUESTS};
use state::sizes::{SESSION_LIMIT, SESSIONS, STRING_LIMIT, Strings, Words};
use state::words::store;

// the shared string has a first byte, and so many more at the most
pub const KEY_REST: usize = STRING_LIMIT - 1;

// The lesser of the two.
pub fn least(a: u64, b: usize) -> usize
    requires { b ≤ list_limit }
    ensures { (result ≡ min a b) × (result ≤ b) }
{
    a.min(b as u64) as usize
}

// How many requests wait.
pub fn waiting_count(w: &Words) -> usize
    ensures { (result ≡ count_of w.now) × (result ≤ session_limit) }
{
    least(w[COUNT], SESSION_LIMIT)
}

// Does no request wait?
#[tactic(auto, using(crate::specs::Requests::none_counted))]
pub fn nobody_waits(w: &Words) -> bool
    ensures { eqb (count_of w.now) 0 ≡ result }
{
    w[COUNT] == 0
}

// The slot of the j-th request that waits.
#[tactic(auto, using(crate::specs::Queue::waiting_at), unfolding(state::specs::View::slot_at))]
pub fn waiting_slot(w: &Words, j: usize) -> usize
    requires { j < count_of w.now }
    ensures { (result < session_limit) × ((s : List ℕ) → get_or (locks_of w.now s).waiting j no_request ≡ request_at w.now s result) }
{
    (w[QUEUE + j] % SESSIONS) as usize
}

// The deadline of the request of slot i.
#[tactic(auto, unfolding(state::specs::View::request_at))]
pub fn deadline_of(w: &Words, i: usize) -> u64
    requires { i < session_limit }
    ensures { (s : List ℕ) → (request_at w.now s i).deadline ≡ result }
{
    w[REQUESTS + i * REQUEST]
}

// The length of the string of slot i's request.
#[tactic(auto, using(crate::specs::Strings::string_length))]
pub fn string_length(w: &Words, i: usize) -> usize
    requires { i < session_limit }
    ensures { (result ≤ string_limit) × ((s : List ℕ) → length s ≡ STRINGS → result ≡ length (string_at w.now s i)) }
{
    least(w[REQUESTS + i * REQUEST + 1], STRING_LIMIT)
}

// The j-th request that waits and the k-th change places: the same slots go on waiting.
#[tactic(auto, using(crate::specs::Queue::swapped, crate::specs::Leaving::swapped_tidy), unfolding(state::specs::View::slot_at))]
pub fn swap_waiting(w: &mut Words, j: usize, k: usize)
    requires { (j < count_of w.old) × (k < count_of w.old) }
    ensures { ((s : List ℕ) → view (memory w.new s) ≡ on_waiting (view (memory w.old s))
        (λ x. set (set x k (get_or x j no_request)) j (get_or x k no_request)))
        × ((s : List ℕ) → Tidy (memory w.old s) → Tidy (memory w.new s)) }
{
    let x = w[QUEUE + j] % SESSIONS;
    let y = w[QUEUE + k] % SESSIONS;
    store(w, QUEUE + k, x);
    store(w, QUEUE + j, y);
}

// The request of slot i, which does not wait, goes to the end of the queue with a string and a deadline.
pub fn put_request(w: &mut Words, strings: &mut Strings, i: usize, deadline: u64, string: &[u8])
    requires { (i < session_limit) × (length string.now ≤ string_limit) × (count_of w.old < session_limit) × Idle w.old i }
    ensures { (view (memory w.new strings.new) ≡ on_waiting (view (memory w.old strings.old))
        (λ x. x ++ (record { slot = i; deadline = deadline; string = string.now } ∷ [])))
        × (Tidy (memory w.old strings.old) → Tidy (memory w.new strings.new)) }
{
    let n = least(w[COUNT], SESSION_LIMIT);
    wire::frame::put_payload(strings, STRING_LIMIT + i * STRING_LIMIT, string);
    w[REQUESTS + i * REQUEST + 1] = string.len() as u64;
    w[REQUESTS + i * REQUEST + 0] = deadline;
    w[QUEUE + n] = i as u64;
    w[COUNT] = n as u64 + 1;
}

// Is the string of slot i's request the shared one?
#[tactic(auto, using(crate::specs::Strings::key_part, crate::specs::Strings::string_part))]
pub fn has_key(w: &Words, strings: &Strings, i: usize) -> bool
    requires { i < session_limit }
    ensures { same (key_of w.now strings.now) (string_at w.now strings.now i) ≡ result }
{
    let k = least(w[KEY], KEY_REST) + 1;
    let n = least(w[REQUESTS + i * REQUEST + 1], STRING_LIMIT);
    let at = STRING_LIMIT + i * STRING_LIMIT;
    same_strings(&strings[..k], &strings[at..at + n])
}

// Is a string, laid nowhere yet, the shared one?
#[tactic(auto, using(crate::specs::Strings::key_part))]
pub fn is_key(w: &Words, strings: &Strings, string: &[u8]) -> bool
    ensures { same (key_of w.now strings.now) string.now ≡ result }
{
    let k = least(w[KEY], KEY_REST) + 1;
    same_strings(&strings[..k], string)
}

// The n bytes from a place on become the first n.
pub fn copy_to_front(strings: &mut Strings, a: usize, n: usize)
    requires { (a + n ≤ STRINGS) × (n ≤ string_limit) }
    ensures { strings.new ≡ splice strings.old 0 (take n (drop a strings.old)) }
{
    let mut b = [0; STRING_LIMIT];
    let copy = &mut b[..n];
    copy.copy_from_slice(&strings[a..a + n]);
    strings[..n].copy_from_slice(copy);
}
