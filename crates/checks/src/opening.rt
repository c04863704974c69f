// The checks of a whole message on a connection without a role.
ghost use Rattle.std.specs.Prelude.{ℕ, ◌||◌, List, ◌≡◌};
ghost use Rattle.checks.specs.Verdicts.{message, verdict_meant};
ghost use Rattle.model.specs.Checks.{first, hislip0, opening_rules};
ghost use Rattle.model.specs.Lists.{all, is_nil, same};
ghost use Rattle.model.specs.State.{at, half_open, live, slot_of_number};
ghost use Rattle.state.specs.View.{locks_of, memory, view};

use crate::verdict::{INVALID_INITIALIZATION, TOO_MANY_SESSIONS, Verdict};
use state::sizes::{NO_CONNECTION, SESSION_LIMIT, Words};
use state::{search, tables};
use wire::types;

// The sub-address of Initialize: empty, or "hislip0".
fn is_sub_address(p: &[u8]) -> bool
    ensures { (is_nil p.now || same p.now hislip0) ≡ result }
{
    p.is_empty() || p == b"hislip0".as_slice()
}

// All slots are taken: no slot has number 0.
fn is_full(w: &Words) -> bool
    ensures { (s : List ℕ) → all live (locks_of w.now s).entries ≡ result }
{
    search::slot_of_number(w, 0) == SESSION_LIMIT
}

// A session with this number that has no second channel.
fn is_half_open(w: &Words, number: u64) -> bool
    ensures { (s : List ℕ) → half_open (at (locks_of w.now s).entries (slot_of_number (locks_of w.now s).entries number)) ≡ result }
{
    if number == 0 {
        return false;
    }
    let slot = search::slot_of_number(w, number);
    if slot >= SESSION_LIMIT {
        return false;
    }
    tables::entry(w, slot, tables::ASYNCHRONOUS) % 256 == NO_CONNECTION
}

// Initialize: the sub-address first, then room for one more session.
fn initialize_verdict(w: &Words, payload: &[u8]) -> Verdict
    ensures { (s : List ℕ) (code param len : ℕ) → first (opening_rules (view (memory w.now s)) (message 0 code param len) payload.now) ≡ verdict_meant result }
{
    if !is_sub_address(payload) {
        return Verdict::Fatal(INVALID_INITIALIZATION);
    }
    if is_full(w) {
        return Verdict::Fatal(TOO_MANY_SESSIONS);
    }
    Verdict::Acts
}

// Checks 3 and 10 of a message, and whether a session can be opened or joined.
pub fn opening_verdict(w: &Words, kind: u8, param: u32, len: u64, payload: &[u8]) -> Verdict
    ensures { (s : List ℕ) (code : ℕ) → first (opening_rules (view (memory w.now s)) (message kind code param len) payload.now) ≡ verdict_meant result }
{
    // check 3: types 0 and 17 pass
    if kind == types::INITIALIZE {
        return initialize_verdict(w, payload);
    }
    if kind != types::ASYNC_INITIALIZE {
        return Verdict::Fatal(INVALID_INITIALIZATION);
    }
    // check 10
    if len > 0 {
        return Verdict::Fatal(INVALID_INITIALIZATION);
    }
    // AsyncInitialize: the number of a half-open session
    if !is_half_open(w, param as u64) {
        return Verdict::Fatal(INVALID_INITIALIZATION);
    }
    Verdict::Acts
}
