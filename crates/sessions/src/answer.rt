// What a delivery answers the host, case by case.
ghost use Rattle.std.specs.Prelude.{◌+◌, ◌≤◌, ◌≡◌};
ghost use Rattle.model.specs.Interface.{outcome_number};
ghost use Rattle.sessions.specs.Outcomes.{outcome_meant};
ghost use Rattle.model.specs.Sizes.{payload_limit};

use crate::Delivery;
use crate::outcome::Outcome;

// The call is turned away.
pub fn refuse(n: u64) -> Delivery
    ensures { result ≡ record { refusal = n; outcome = 0; session = 0; taken = 0; output = 0; missing = 0 } }
{
    Delivery {
        refusal: n,
        outcome: 0,
        session: 0,
        taken: 0,
        output: 0,
        missing: 0,
    }
}

// More needed: so many bytes are missing.
pub fn more_needed(missing: u64) -> Delivery
    ensures { result ≡ record { refusal = 0; outcome = 0; session = 0; taken = 0; output = 0; missing = missing } }
{
    Delivery {
        refusal: 0,
        outcome: Outcome::MoreNeeded as u64,
        session: 0,
        taken: 0,
        output: 0,
        missing,
    }
}

// Nothing is sent: skipped, held, ignored.
pub fn quiet(outcome: Outcome, taken: u64) -> Delivery
    ensures { result ≡ record { refusal = 0; outcome = outcome_number (outcome_meant outcome); session = 0; taken = taken; output = 0; missing = 0 } }
{
    Delivery {
        refusal: 0,
        outcome: outcome as u64,
        session: 0,
        taken,
        output: 0,
        missing: 0,
    }
}

// An Error is sent: one frame without payload.
pub fn error_sent(taken: u64) -> Delivery
    ensures { result ≡ record { refusal = 0; outcome = 4; session = 0; taken = taken; output = 17; missing = 0 } }
{
    Delivery {
        refusal: 0,
        outcome: Outcome::ErrorSent as u64,
        session: 0,
        taken,
        output: 17,
        missing: 0,
    }
}

// The session, or the connection, closes.
pub fn closed(session: u64, output: u64) -> Delivery
    ensures { result ≡ record { refusal = 0; outcome = 5; session = session; taken = 0; output = output; missing = 0 } }
{
    Delivery {
        refusal: 0,
        outcome: Outcome::Closed as u64,
        session,
        taken: 0,
        output,
        missing: 0,
    }
}

// A message with a payload of so many bytes acts.
pub fn acted(session: u64, len: u64, output: u64) -> Delivery
    requires { len ≤ payload_limit }
    ensures { result ≡ record { refusal = 0; outcome = 6; session = session; taken = 16 + len; output = output; missing = 0 } }
{
    Delivery {
        refusal: 0,
        outcome: Outcome::Acted as u64,
        session,
        taken: 16 + len,
        output,
        missing: 0,
    }
}
