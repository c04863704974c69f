// One delivery, check by check: what is to be done with a message, decided without changing anything.
#![tactic(auto)]

pub mod asynchronous;
pub mod opening;
pub mod synchronous;
pub mod verdict;
pub mod whole;
