// The shared lock and its string: the string is written when the first session gets the lock. A later one's string is that string already.
ghost use Rattle.std.specs.Prelude.{◌-◌, ◌<◌, ◌≤◌, length, set, true, ◌≡◌};
ghost use Rattle.model.specs.Lists.{all};
ghost use Rattle.model.specs.Locks.{fits, give, no_shared, without_shared};
ghost use Rattle.model.specs.Sizes.{session_limit, string_limit};
ghost use Rattle.state.specs.Change.{on_entry};
ghost use Rattle.state.specs.Layout.{KEY, STRINGS, WORDS};
ghost use Rattle.queue.specs.Requests.{string_at};
ghost use Rattle.state.specs.Tidy.{Tidy};
ghost use Rattle.state.specs.View.{key_of, locks_of, memory, view};
ghost use Rattle.wire.specs.Splice.{splice};

use crate::wiping::wipe_key;
use queue::requests::copy_to_front;
use state::holders::{SETS, first_sharer, join_sharers, nobody_shares, taken_out};
use state::layout::{KEY, SHARERS};
use state::sizes::{STRING_LIMIT, Strings, Words};

// While nobody shares, a string becomes the one that the next session shares. Nobody sees it yet.
#[tactic(auto, using(queue::specs::Sharing::key_unseen, queue::specs::Sharing::key_laid))]
fn lay_key(w: &mut Words, strings: &mut Strings, string: &[u8])
    requires { (0 < length string.now) × (length string.now ≤ string_limit)
        × (all no_shared (locks_of w.old strings.old).entries ≡ true) }
    ensures { (view (memory w.new strings.new) ≡ view (memory w.old strings.old))
        × (key_of w.new strings.new ≡ string.now) × (w.new ≡ set w.old KEY (length string.now - 1))
        × (strings.new ≡ splice strings.old 0 string.now) }
{
    wire::frame::put_payload(strings, 0, string);
    w[KEY] = string.len() as u64 - 1;
}

// The same with the string of slot i's request, which has n bytes.
#[tactic(auto, using(queue::specs::Strings::string_bytes, queue::specs::Sharing::key_unseen, queue::specs::Sharing::key_laid))]
fn copy_key(w: &mut Words, strings: &mut Strings, i: usize, n: usize)
    requires { (i < session_limit) × (0 < n) × (n ≤ string_limit)
        × (n ≡ length (string_at w.old strings.old i)) × (all no_shared (locks_of w.old strings.old).entries ≡ true) }
    ensures { (view (memory w.new strings.new) ≡ view (memory w.old strings.old))
        × (key_of w.new strings.new ≡ string_at w.old strings.old i)
        × (w.new ≡ set w.old KEY (length (string_at w.old strings.old i) - 1))
        × (strings.new ≡ splice strings.old 0 (string_at w.old strings.old i)) }
{
    copy_to_front(strings, STRING_LIMIT + i * STRING_LIMIT, n);
    w[KEY] = n as u64 - 1;
}

// Slot i gets the shared lock with a string that fits the shared locks.
#[tactic(auto, using(queue::specs::Sharing::no_sharers, queue::specs::Sharing::given_laid, queue::specs::Unsharing::first_tidy, queue::specs::Sharing::fits_key))]
pub fn give_key(w: &mut Words, strings: &mut Strings, i: usize, string: &[u8])
    requires { (i < session_limit) × (0 < length string.now) × (length string.now ≤ string_limit) × (all (fits string.now) (locks_of w.old strings.old).entries ≡ true) }
    ensures { (view (memory w.new strings.new) ≡ on_entry (view (memory w.old strings.old)) i
        (give string.now)) × (Tidy (memory w.old strings.old) → Tidy (memory w.new strings.new)) }
{
    if nobody_shares(w) {
        lay_key(w, strings, string);
        first_sharer(w, i);
        return;
    }
    join_sharers(w, i);
}

// Slot i gets the shared lock with the string of its request, which has n bytes and fits the shared locks.
#[tactic(auto, using(queue::specs::Sharing::no_sharers, queue::specs::Sharing::given_laid, queue::specs::Unsharing::first_tidy, queue::specs::Sharing::fits_key))]
pub fn give_shared(w: &mut Words, strings: &mut Strings, i: usize, n: usize)
    requires { (i < session_limit) × (n ≡ length (string_at w.old strings.old i)) × (0 < n) × (n ≤ string_limit)
        × (all (fits (string_at w.old strings.old i)) (locks_of w.old strings.old).entries ≡ true) }
    ensures { (view (memory w.new strings.new) ≡ on_entry (view (memory w.old strings.old)) i
        (give (string_at w.old strings.old i)))
        × (Tidy (memory w.old strings.old) → Tidy (memory w.new strings.new)) }
{
    if nobody_shares(w) {
        copy_key(w, strings, i, n);
        first_sharer(w, i);
        return;
    }
    join_sharers(w, i);
}

// Slot i holds the shared lock no more, if it did; with the last the string goes.
#[tactic(auto, using(state::specs::Granting::shared_dropped, queue::specs::Unsharing::none_left, queue::specs::Unsharing::others_left, queue::specs::Unsharing::last_left))]
pub fn leave_sharers(w: &mut Words, strings: &mut Strings, i: usize)
    requires { i < session_limit }
    ensures { (view (memory w.new strings.new) ≡ on_entry (view (memory w.old strings.old)) i without_shared)
        × (Tidy (memory w.old strings.old) → Tidy (memory w.new strings.new)) }
{
    let before = w[SHARERS];
    let left = taken_out(before, i);
    w[SHARERS] = left;
    // It did not share.
    if left == before {
        return;
    }
    // Others share.
    if left % SETS != 0 {
        return;
    }
    wipe_key(w, strings);
}
