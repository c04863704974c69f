// Finding a session: by one of its connections, and by its number.
ghost use Rattle.std.specs.Prelude.{ℕ, ◌*◌, ◌+◌, ◌-◌, ◌<◌, ◌≤◌, eqb, List, ◌≡◌};
ghost use Rattle.model.specs.Place.{place_of, role_in};
ghost use Rattle.model.specs.State.{at, slot_of_number};
ghost use Rattle.state.specs.Channels.{Unshown};
ghost use Rattle.state.specs.Search.{IsWithin, place_meant, seat};
ghost use Rattle.state.specs.View.{field_of, home_of, locks_of, row_word};
ghost use Rattle.model.specs.Sizes.{connection_limit, session_limit};

use crate::sizes::{CONNECTIONS, SESSION_LIMIT, SESSIONS, Words};
use crate::tables;

// The second place in the last slot's row.
const LAST_HOME: u64 = SESSIONS * 2;

// The place of a connection: without a session; the one of a session without its second channel; on one of the two channels of an established
// session. With it the session's slot.
#[derive(Clone, Copy, Debug, PartialEq, Eq)]
pub enum Place {
    Nowhere,
    HalfOpen(usize),
    OnSynchronous(usize),
    OnAsynchronous(usize),
}

impl Place {
    // The slot of the session; without one it is one past the table.
    pub fn slot(self) -> usize
        ensures { result ≡ (place_meant self).slot }
    {
        match self {
            Place::Nowhere => SESSION_LIMIT,
            Place::HalfOpen(i) | Place::OnSynchronous(i) | Place::OnAsynchronous(i) => i,
        }
    }
}

// Does slot i, where the home h of connection c is, show it: is it live, and does its row name it there? The place in the row is what h has above i * 2.
fn is_confirmed(w: &Words, i: usize, h: u64, c: u64) -> bool
    requires { (i < session_limit) × (i * 2 < h) × (h < i * 2 + 3) × (c < connection_limit) × (home_of w.now c ≡ h) }
    ensures { eqb (field_of w.now i (h - i * 2)) c ≡ result }
{
    tables::row_of_home(w, i, h) == c && tables::row(w, i, tables::NUMBER) != 0
}

// The place of the connection with home h that slot i shows. An odd home is a first connection's: then the second decides, which is read as
// it stands and confirmed by its own home, for that the slot is live is known.
fn place_at(w: &Words, i: usize, h: u64) -> Place
    requires { (i < session_limit) × (i * 2 < h) × (h < i * 2 + 3) × (row_word w.now i 0 ≡ 0 → ⊥) }
    ensures found { (s : List ℕ) (c : ℕ) → c < connection_limit → field_of w.now i (h - i * 2) ≡ c → seat i (role_in c (at (locks_of w.now s).entries i)) ≡ place_meant result }
    ensures inside { IsWithin result }
    ensures somewhere { result ≡ Place.Nowhere → ⊥ }
{
    if h % 2 == 0 {
        return Place::OnAsynchronous(i);
    }
    let second = tables::row(w, i, tables::ASYNCHRONOUS);
    if second >= CONNECTIONS {
        return Place::HalfOpen(i);
    }
    if tables::home(w, second) != h + 1 {
        return Place::HalfOpen(i);
    }
    Place::OnSynchronous(i)
}

// The place of a connection: one look, where its home is, confirmed by the slot.
pub fn place_of(w: &Words, c: u64) -> Place
    requires { c < connection_limit }
    ensures found { (s : List ℕ) → place_of (locks_of w.now s).entries c ≡ place_meant result }
    ensures inside { IsWithin result }
    ensures unshown { result ≡ Place.Nowhere → Unshown w.now c }
{
    let h = tables::home(w, c);
    if h == 0 || h > LAST_HOME {
        return Place::Nowhere;
    }
    let i = ((h - 1) / 2) as usize;
    if !is_confirmed(w, i, h, c) {
        return Place::Nowhere;
    }
    place_at(w, i, h)
}

// The slot of the session with a number (past the slots: none); of number 0, the first free slot.
pub fn slot_of_number(w: &Words, n: u64) -> usize
    ensures { (result ≤ session_limit) × ((s : List ℕ) → slot_of_number (locks_of w.now s).entries n ≡ result) }
{
    for i in 0..SESSION_LIMIT {
        if tables::entry(w, i, tables::NUMBER) == n {
            return i;
        }
    }
    SESSION_LIMIT
}
