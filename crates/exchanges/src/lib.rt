// What is asked of a session and answered: answers sent and withheld, queries that are interrupted, and the other events that are no
// deliveries, but for a cut and the clock.
#![tactic(auto)]

pub mod events;
pub mod interrupted;
pub mod rmt;
