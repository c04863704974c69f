// The four questions of a host, which change nothing.
#![tactic(auto)]

pub mod asking;
pub mod found;
pub mod holders;
pub mod watched;

// The refusal of a session that there is not.
pub const NO_SUCH_SESSION: u64 = 8;
