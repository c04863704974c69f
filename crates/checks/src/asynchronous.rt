// The checks of a whole message on a session's asynchronous channel.
ghost use Rattle.std.specs.Prelude.{ℕ, List, ◌≡◌};
ghost use Rattle.checks.specs.Asynchronous.{code_wrong, payload_wrong};
ghost use Rattle.checks.specs.Verdicts.{message, verdict_meant};
ghost use Rattle.model.specs.Checks.{asynchronous_rules, first};

use crate::verdict::{
    INVALID_INITIALIZATION, UNIDENTIFIED, UNRECOGNISED_CODE, UNRECOGNISED_TYPE,
    UNRECOGNISED_VENDOR_TYPE, Verdict,
};
use wire::class::{self, Class};
use wire::types;

// Check 10: code 0 or 1 for lock and status query, 0 to 6 for remote/local, any code for the others.
fn code_wrong(kind: u8, code: u8) -> bool
    ensures { result ≡ code_wrong kind code }
{
    match kind {
        types::ASYNC_LOCK | types::ASYNC_STATUS_QUERY => code > 1,
        types::ASYNC_REMOTE_LOCAL_CONTROL => code > 6,
        _ => false,
    }
}

// Check 10: a payload belongs to a lock request (code 1) and, with 8 bytes, to the maximum size.
fn payload_wrong(kind: u8, code: u8, len: u64) -> bool
    ensures { result ≡ payload_wrong kind code len }
{
    match kind {
        types::ASYNC_LOCK => code == 0 && len > 0,
        types::ASYNC_MAXIMUM_MESSAGE_SIZE => len != 8,
        types::ASYNC_REMOTE_LOCAL_CONTROL
        | types::ASYNC_DEVICE_CLEAR
        | types::ASYNC_STATUS_QUERY
        | types::ASYNC_LOCK_INFO => len > 0,
        _ => false,
    }
}

// Checks 6, 8 and 10 of a message.
pub fn asynchronous_verdict(kind: u8, code: u8, len: u64) -> Verdict
    ensures { (p : List ℕ) (param : ℕ) → first (asynchronous_rules (message kind code param len) p) ≡ verdict_meant result }
{
    // check 6
    if kind == types::FATAL_ERROR {
        return Verdict::Closed;
    }
    if kind == types::ERROR {
        return Verdict::Ignored;
    }
    // check 8
    match class::class_of(1, kind) {
        Class::Vendor => return Verdict::Error(UNRECOGNISED_VENDOR_TYPE),
        Class::Unrecognised => return Verdict::Error(UNRECOGNISED_TYPE),
        Class::ActedOn => {}
    }
    if kind == types::ASYNC_INITIALIZE {
        return Verdict::Fatal(INVALID_INITIALIZATION);
    }
    // check 10
    if code_wrong(kind, code) {
        return Verdict::Error(UNRECOGNISED_CODE);
    }
    if payload_wrong(kind, code, len) {
        return Verdict::Error(UNIDENTIFIED);
    }
    Verdict::Acts
}
