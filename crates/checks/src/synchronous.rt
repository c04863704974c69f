// The checks of a whole message on a session's synchronous channel.
ghost use Rattle.std.specs.Prelude.{ℕ, ◌<◌, eqb, List, ◌≡◌};
ghost use Rattle.checks.specs.Verdicts.{message, verdict_meant};
ghost use Rattle.checks.specs.Synchronous.{with_any_command, commanded, completed};
ghost use Rattle.model.specs.Checks.{first, synchronous_rules};
ghost use Rattle.model.specs.Locks.{access};
ghost use Rattle.model.specs.State.{exchange_at};
ghost use Rattle.state.specs.View.{allowed_of, locks_of, memory, rest_of, view};
ghost use Rattle.model.specs.Sizes.{session_limit};

use crate::verdict::{
    INVALID_INITIALIZATION, NOT_ALLOWED, UNIDENTIFIED, UNRECOGNISED_CODE, UNRECOGNISED_TYPE,
    UNRECOGNISED_VENDOR_TYPE, Verdict,
};
use allowed::listing;
use holding::access;
use holding::standing::NUMBERS;
use state::sizes::{Strings, Words};
use state::tables;
use wire::class::{self, Class};
use wire::types;

// The control codes of Data, DataEND and Trigger are 0 and this one.
const LAST_CODE: u8 = 1;

pub fn in_clear(w: &Words, i: usize) -> bool
    requires { i < session_limit }
    ensures { (exchange_at (rest_of w.now) i).in_clear ≡ result }
{
    tables::exchange(w, i, tables::IN_CLEAR) == 1
}

// Is this the number that the next Data, DataEND or Trigger must carry?
pub fn is_expected(w: &Words, i: usize, param: u32) -> bool
    requires { i < session_limit }
    ensures { eqb param (exchange_at (rest_of w.now) i).number_expected ≡ result }
{
    let expected = tables::exchange(w, i, tables::NUMBER_EXPECTED) % NUMBERS;
    param as u64 == expected
}

// Check 10 of DeviceClearComplete: no payload, and only in a clear.
fn complete_verdict(clearing: bool, len: u64) -> Verdict
    ensures { completed clearing len ≡ verdict_meant result }
{
    match (clearing, len) {
        (true, 0) => Verdict::Acts,
        _ => Verdict::Error(UNIDENTIFIED),
    }
}

// Checks 9 and 10 of Data, DataEND and Trigger, and that of the number between them.
fn command_verdict(w: &Words, i: usize, kind: u8, code: u8, param: u32, len: u64) -> Verdict
    requires { i < session_limit }
    ensures { (s : List ℕ) → commanded (access (locks_of w.now s).entries i) (eqb param (exchange_at (rest_of w.now) i).number_expected) kind code len ≡ verdict_meant result }
{
    if !access::has_access(w, i) {
        return Verdict::Held;
    }
    if !is_expected(w, i, param) {
        return Verdict::Error(UNIDENTIFIED);
    }
    if code > LAST_CODE {
        return Verdict::Error(UNRECOGNISED_CODE);
    }
    if kind == types::TRIGGER && len > 0 {
        return Verdict::Error(UNIDENTIFIED);
    }
    Verdict::Acts
}

// Checks 6 to 10 of a message for the session in slot `i`, as if any command were allowed. What that leaves is a DataEND that would act.
pub fn synchronous_verdict(w: &Words, i: usize, kind: u8, code: u8, param: u32, len: u64) -> Verdict
    requires { i < session_limit }
    ensures { (s p : List ℕ) → first (synchronous_rules (with_any_command (view (memory w.now s))) i (message kind code param len) p) ≡ verdict_meant result }
{
    // check 6
    if kind == types::FATAL_ERROR {
        return Verdict::Closed;
    }
    if kind == types::ERROR {
        return Verdict::Ignored;
    }
    // check 7: type 8 passes, and is left with check 10
    let clearing = in_clear(w, i);
    if kind == types::DEVICE_CLEAR_COMPLETE {
        return complete_verdict(clearing, len);
    }
    if clearing {
        return Verdict::Ignored;
    }
    // check 8
    match class::class_of(0, kind) {
        Class::Vendor => return Verdict::Error(UNRECOGNISED_VENDOR_TYPE),
        Class::Unrecognised => return Verdict::Error(UNRECOGNISED_TYPE),
        Class::ActedOn => {}
    }
    if kind == types::INITIALIZE {
        return Verdict::Fatal(INVALID_INITIALIZATION);
    }
    // checks 9 and 10: 6, 7 and 12 are left
    command_verdict(w, i, kind, code, param, len)
}

// The same with the list behind it, which a DataEND that would act is asked for.
pub fn listed_verdict(
    w: &Words,
    strings: &Strings,
    i: usize,
    kind: u8,
    code: u8,
    param: u32,
    len: u64,
    payload: &[u8],
) -> Verdict
    requires { i < session_limit }
    ensures { (s : List ℕ) → allowed_of w.now s ≡ allowed_of w.now strings.now →
        first (synchronous_rules (view (memory w.now s)) i (message kind code param len) payload.now) ≡ verdict_meant result }
{
    match synchronous_verdict(w, i, kind, code, param, len) {
        Verdict::Acts => {
            if kind == types::DATA_END && !listing::is_allowed(w, strings, payload) {
                return Verdict::Error(NOT_ALLOWED);
            }
            Verdict::Acts
        }
        v => v,
    }
}
