// What opens and closes a session, how an Error and a FatalError are answered, and the struct that a delivery answers with.
#![tactic(auto)]

pub mod answer;
pub mod closing;
pub mod mode;
pub mod opening;
pub mod outcome;
pub mod refusal;
pub mod replies;
pub mod session_id;

// What a delivery answers the host: the refusal (0: none); the outcome; the session's number; the bytes taken; how many bytes of the output
// hold frames; how many bytes are missing, if more are needed.
// Kept: numbers for the refusal and the outcome, since this is a struct of the C interface.
#[repr(C)]
#[derive(Clone, Copy)]
pub struct Delivery {
    pub refusal: u64,
    pub outcome: u64,
    pub session: u64,
    pub taken: u64,
    pub output: u64,
    pub missing: u64,
}
