// The release that stands, as a row of the table of sessions keeps it: 0 for none; else, less 1, the number that it waits for, and
// above 32 bits which lock it frees.
ghost use Rattle.std.specs.Prelude.{ℕ, ◌-◌, ◌<◌, ◌≤◌, ◌%◌, ◌^◌, eqb, List, ◌≡◌};
ghost use Rattle.holding.specs.Standing.{kind_of, standing_as};
ghost use Rattle.model.specs.Locks.{release_code, without};
ghost use Rattle.model.specs.Sizes.{session_limit};
ghost use Rattle.model.specs.State.{Standing.release_of, at};
ghost use Rattle.state.specs.Change.{on_entry};
ghost use Rattle.state.specs.Tidy.{Tidy};
ghost use Rattle.state.specs.View.{locks_of, memory, standing_of, view};

use shares::sharing;
use state::sizes::{Strings, Words};
use state::{holders, tables};

// Numbers of messages are 32 bits wide.
pub const NUMBERS: u64 = 4294967296;

// The lock that a release frees.
#[derive(Clone, Copy, PartialEq, Eq)]
pub enum LockKind {
    Exclusive,
    Shared,
}

impl LockKind {
    // The code of the answer to a release that frees it.
    pub fn code(self) -> u8
        ensures { result ≡ release_code (kind_of self) }
    {
        match self {
            LockKind::Exclusive => 1,
            LockKind::Shared => 2,
        }
    }
}

// A release that stands: the lock that it frees, and the number of the message that it waits for.
#[derive(Clone, Copy)]
pub struct Standing {
    pub kind: LockKind,
    pub number: u32,
}

// Does a release of slot i stand?
pub fn stands(w: &Words, i: usize) -> bool
    requires { i < session_limit }
    ensures { (s : List ℕ) → Rattle.model.specs.Locks.stands (at (locks_of w.now s).entries i).standing ≡ result }
{
    tables::order(w, i, tables::STANDING) != 0
}

// Is n the number of the last message of slot i?
pub fn is_last(w: &Words, i: usize, n: u32) -> bool
    requires { i < session_limit }
    ensures { (s : List ℕ) → eqb (at (locks_of w.now s).entries i).last n ≡ result }
{
    tables::order(w, i, tables::LAST_NUMBER) % NUMBERS == n as u64
}

// Which lock the release of a word frees.
pub fn kind_in(word: u64) -> LockKind
    requires { word ≡ 0 → ⊥ }
    ensures { standing_of word ≡ release_of (kind_of result) ((word - 1) % 2 ^ 32) }
{
    if word > NUMBERS {
        LockKind::Shared
    } else {
        LockKind::Exclusive
    }
}

// The release of slot i that stands.
pub fn standing_at(w: &Words, i: usize) -> Option<Standing>
    requires { i < session_limit }
    ensures { (s : List ℕ) → (at (locks_of w.now s).entries i).standing ≡ standing_as result }
{
    let word = tables::order(w, i, tables::STANDING);
    if word == 0 {
        return None;
    }
    Some(Standing {
        kind: kind_in(word),
        number: ((word - 1) % NUMBERS) as u32,
    })
}

// The word of a release that waits for message n.
pub fn standing_word(kind: LockKind, n: u32) -> u64
    ensures { (standing_of result ≡ release_of (kind_of kind) n) × (result ≤ 2 ^ 33) }
{
    let m = n as u64 + 1;
    match kind {
        LockKind::Exclusive => m,
        LockKind::Shared => m + NUMBERS,
    }
}

// Slot i holds the lock of a kind no more, if it did.
pub fn free_lock(w: &mut Words, strings: &mut Strings, i: usize, kind: LockKind)
    requires { i < session_limit }
    ensures { (view (memory w.new strings.new) ≡ on_entry (view (memory w.old strings.old)) i
        (without (kind_of kind))) × (Tidy (memory w.old strings.old) → Tidy (memory w.new strings.new)) }
{
    match kind {
        LockKind::Exclusive => holders::drop_exclusive(w, i),
        LockKind::Shared => sharing::leave_sharers(w, strings, i),
    }
}
