// Who holds which lock, in one look: the word of the exclusive holder and the set of those that share, a bit for each slot.
ghost use Rattle.std.specs.Prelude.{ℕ, ◌*◌, ◌+◌, ◌/◌, ◌<◌, ◌≤◌, ◌%◌, ◌^◌, eqb, set, not, List, [], ◌≡◌};
ghost use Rattle.model.specs.Lists.{all, all_but};
ghost use Rattle.model.specs.Locks.{give, no_exclusive, no_shared, without_exclusive};
ghost use Rattle.model.specs.State.{at};
ghost use Rattle.bits.specs.Bits.{bit};
ghost use Rattle.state.specs.Bits.{with_bit, without};
ghost use Rattle.state.specs.Change.{on_entry};
ghost use Rattle.state.specs.Holders.{NoOther};
ghost use Rattle.state.specs.Tidy.{Tidy};
ghost use Rattle.state.specs.View.{key_of, locks_of, memory, view, word};
ghost use Rattle.model.specs.Sizes.{session_limit};
ghost use Rattle.state.specs.Layout.{SHARERS};

use crate::layout::{HOLDER, SHARERS};
use crate::sizes::{SESSION_LIMIT, SESSIONS, Words};
use crate::words::store;
use bits::power_of;

// Does slot i hold the exclusive lock?
#[tactic(auto, using(crate::specs::Holders::holds_exclusive))]
pub fn is_exclusive(w: &Words, i: usize) -> bool
    requires { i < session_limit }
    ensures { (s : List ℕ) → (at (locks_of w.now s).entries i).exclusive ≡ result }
{
    w[HOLDER] == i as u64 + 1
}

// Does nobody hold the exclusive lock?
#[tactic(auto, using(crate::specs::Holders::nobody_exclusive, crate::specs::Holders::holder_test))]
pub fn nobody_exclusive(w: &Words) -> bool
    ensures { (s : List ℕ) → all no_exclusive (locks_of w.now s).entries ≡ result }
{
    let h = w[HOLDER];
    h == 0 || h > SESSIONS
}

// Does nobody but slot i hold the exclusive lock?
#[tactic(auto, using(crate::specs::Holders::no_other_exclusive, crate::specs::Holders::other_test))]
pub fn no_other_exclusive(w: &Words, i: usize) -> bool
    requires { i < session_limit }
    ensures { (s : List ℕ) → all_but no_exclusive i (locks_of w.now s).entries ≡ result }
{
    let h = w[HOLDER];
    h == i as u64 + 1 || h == 0 || h > SESSIONS
}

// Sets of slots, a bit each.
pub const SETS: u64 = 1 << SESSION_LIMIT;

// Is slot i in a set?
pub fn is_in(m: u64, i: usize) -> bool
    requires { i < session_limit }
    ensures { eqb (bit m i) 1 ≡ result }
{
    (m >> i) % 2 == 1
}

// Without slot i: it is put in and taken off, which the machine does as one.
#[tactic(auto, using(crate::specs::Bits::or_joins))]
pub fn taken_out(m: u64, i: usize) -> u64
    requires { i < session_limit }
    ensures { result ≡ without m i }
{
    let p = power_of(i);
    (m | p) - p
}

// With slot i: one instruction.
#[tactic(auto, using(crate::specs::Bits::or_with))]
pub fn put_in(m: u64, i: usize) -> u64
    requires { i < session_limit }
    ensures { result ≡ with_bit session_limit m i }
{
    (m | power_of(i)) % SETS
}

// Does slot i hold the shared lock?
#[tactic(auto, using(crate::specs::Holders::holds_shared))]
pub fn is_sharing(w: &Words, i: usize) -> bool
    requires { i < session_limit }
    ensures { (s : List ℕ) → no_shared (at (locks_of w.now s).entries i) ≡ not result }
{
    is_in(w[SHARERS], i)
}

// Does nobody hold the shared lock?
#[tactic(auto, using(crate::specs::Holders::sharers_test))]
pub fn nobody_shares(w: &Words) -> bool
    ensures { (s : List ℕ) → all no_shared (locks_of w.now s).entries ≡ result }
{
    w[SHARERS] % SETS == 0
}

// Slot i gets the exclusive lock, which nobody else holds.
#[tactic(auto, using(crate::specs::Granting::exclusive_given, crate::specs::Keeping::holder_tidy))]
pub fn give_exclusive(w: &mut Words, i: usize)
    requires { (i < session_limit) × NoOther w.old i }
    ensures { ((s : List ℕ) → view (memory w.new s) ≡ on_entry (view (memory w.old s)) i (give []))
        × ((s : List ℕ) → Tidy (memory w.old s) → Tidy (memory w.new s)) }
{
    store(w, HOLDER, i as u64 + 1);
}

// Slot i holds the exclusive lock no more, if it did.
#[tactic(auto, using(crate::specs::Granting::exclusive_dropped, crate::specs::Granting::exclusive_stays, crate::specs::Keeping::holder_tidy))]
pub fn drop_exclusive(w: &mut Words, i: usize)
    requires { i < session_limit }
    ensures { ((s : List ℕ) → view (memory w.new s) ≡ on_entry (view (memory w.old s)) i without_exclusive)
        × ((s : List ℕ) → Tidy (memory w.old s) → Tidy (memory w.new s)) }
{
    if w[HOLDER] == i as u64 + 1 {
        store(w, HOLDER, 0);
    }
}

// Slot i joins those that share, with their string.
#[tactic(auto, using(crate::specs::Granting::sharer_joined, crate::specs::Keeping::joins_tidy))]
pub fn join_sharers(w: &mut Words, i: usize)
    requires { i < session_limit }
    ensures { ((s : List ℕ) → view (memory w.new s) ≡ on_entry (view (memory w.old s)) i (give (key_of w.old s)))
        × ((s : List ℕ) → Tidy (memory w.old s) → Tidy (memory w.new s)) }
{
    let m = put_in(w[SHARERS], i);
    store(w, SHARERS, m);
}

// The same where nobody shares: slot i is the only one.
#[tactic(auto, using(crate::specs::Granting::first_joined))]
pub fn first_sharer(w: &mut Words, i: usize)
    requires { (i < session_limit) × (word w.old SHARERS % 2 ^ session_limit ≡ 0) }
    ensures { ((s : List ℕ) → view (memory w.new s) ≡ on_entry (view (memory w.old s)) i (give (key_of w.old s)))
        × (w.new ≡ set w.old SHARERS (2 ^ i)) × (2 ^ i < 2 ^ session_limit) }
{
    let m = power_of(i);
    store(w, SHARERS, m);
}
