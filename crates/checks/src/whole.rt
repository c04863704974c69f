// The verdict by the connection's role, which is a number, and by its place.
ghost use Rattle.std.specs.Prelude.{ℕ, ◌<◌, List, ◌≡◌};
ghost use Rattle.checks.specs.Roles.{role_number};
ghost use Rattle.checks.specs.Verdicts.{message, verdict_meant};
ghost use Rattle.model.specs.Sizes.{session_limit};
ghost use Rattle.model.specs.Checks.{judged, partly, too_long};
ghost use Rattle.model.specs.Place.{Role};
ghost use Rattle.state.specs.Search.{place_meant};
ghost use Rattle.state.specs.View.{allowed_of, memory, view};

use crate::verdict::{CHANNELS_MISSING, INVALID_INITIALIZATION, TOO_LARGE, Verdict};
use crate::{asynchronous, opening, synchronous};
use state::search::Place;
use state::sizes::{Strings, Words};
use wire::types;

// The role of a connection: none, the one of a half-open session, synchronous, asynchronous.
pub const NO_ROLE: u8 = 0;

pub const HALF_OPEN: u8 = 1;

pub const ON_SYNCHRONOUS: u8 = 2;

pub const ON_ASYNCHRONOUS: u8 = 3;

// Checks 3 and 4: the length is above 1,024.
pub fn long_verdict(role: u8) -> Verdict
    ensures told { (ro : Role) → role_number ro ≡ role → too_long ro ≡ verdict_meant result }
    ensures acts { result ≡ Verdict.Acts → ⊥ }
    ensures held { result ≡ Verdict.Held → ⊥ }
{
    match role {
        NO_ROLE => Verdict::Fatal(INVALID_INITIALIZATION),
        HALF_OPEN => Verdict::Fatal(CHANNELS_MISSING),
        _ => Verdict::Error(TOO_LARGE),
    }
}

// Checks 3 and 5: the payload is not all here.
pub fn partial_verdict(role: u8, kind: u8) -> Verdict
    ensures told { (ro : Role) (code param len : ℕ) → role_number ro ≡ role → partly ro (message kind code param len) ≡ verdict_meant result }
    ensures acts { result ≡ Verdict.Acts → ⊥ }
    ensures held { result ≡ Verdict.Held → ⊥ }
{
    match role {
        HALF_OPEN => Verdict::Fatal(CHANNELS_MISSING),
        NO_ROLE => match kind {
            types::INITIALIZE | types::ASYNC_INITIALIZE => Verdict::More,
            _ => Verdict::Fatal(INVALID_INITIALIZATION),
        },
        _ => Verdict::More,
    }
}

// Checks 3 and 6 to 10 of a message that is all here, payload and all, and that of the list; `i` is the slot of an established session.
pub fn whole_verdict(
    w: &Words,
    strings: &Strings,
    role: u8,
    i: usize,
    kind: u8,
    code: u8,
    param: u32,
    len: u64,
    payload: &[u8],
) -> Verdict
    requires { role ≡ 2 → i < session_limit }
    ensures { (s : List ℕ) (ro : Role) → role_number ro ≡ role →
        (role ≡ 2 → allowed_of w.now s ≡ allowed_of w.now strings.now) →
        judged ro (view (memory w.now s)) i (message kind code param len) payload.now ≡ verdict_meant result }
{
    match role {
        NO_ROLE => opening::opening_verdict(w, kind, param, len, payload),
        HALF_OPEN => Verdict::Fatal(CHANNELS_MISSING),
        ON_SYNCHRONOUS => {
            synchronous::listed_verdict(w, strings, i, kind, code, param, len, payload)
        }
        _ => asynchronous::asynchronous_verdict(kind, code, len),
    }
}

// The role of a place, by its number.
#[inline(always)]
fn role_of(place: Place) -> u8
    ensures { role_number (place_meant place).role ≡ result }
{
    match place {
        Place::Nowhere => NO_ROLE,
        Place::HalfOpen(_) => HALF_OPEN,
        Place::OnSynchronous(_) => ON_SYNCHRONOUS,
        Place::OnAsynchronous(_) => ON_ASYNCHRONOUS,
    }
}

// Checks 3 and 4 by the place, whose role is handed on.
#[inline(always)]
pub fn long_verdict_at(place: Place) -> Verdict
    ensures told { too_long (place_meant place).role ≡ verdict_meant result }
    ensures acts { result ≡ Verdict.Acts → ⊥ }
    ensures held { result ≡ Verdict.Held → ⊥ }
{
    long_verdict(role_of(place))
}

// Checks 3 and 5 by the place.
#[inline(always)]
pub fn partial_verdict_at(place: Place, kind: u8) -> Verdict
    ensures told { (code param len : ℕ) → partly (place_meant place).role (message kind code param len) ≡ verdict_meant result }
    ensures acts { result ≡ Verdict.Acts → ⊥ }
    ensures held { result ≡ Verdict.Held → ⊥ }
{
    partial_verdict(role_of(place), kind)
}

// Checks 3 and 6 to 10 by the place, whose role and slot are handed on.
#[inline(always)]
pub fn whole_verdict_at(
    w: &Words,
    strings: &Strings,
    place: Place,
    kind: u8,
    code: u8,
    param: u32,
    len: u64,
    payload: &[u8],
) -> Verdict
    requires { (i : ℕ) → place ≡ Place.OnSynchronous i → i < session_limit }
    ensures { (s : List ℕ) →
        ((i : ℕ) → place ≡ Place.OnSynchronous i → allowed_of w.now s ≡ allowed_of w.now strings.now) →
        judged (place_meant place).role (view (memory w.now s)) (place_meant place).slot (message kind code param len) payload.now ≡ verdict_meant result }
{
    let role = role_of(place);
    let i = place.slot();
    whole_verdict(w, strings, role, i, kind, code, param, len, payload)
}
