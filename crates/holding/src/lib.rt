// What the lock rules stand on: who has access, who holds and who waits, the release that stands, how a lock answer is written. Each
// function that changes the lent memory does what the model says of one lock event.
#![tactic(auto)]

pub mod access;
pub mod answers;
pub mod deadline;
pub mod info;
pub mod sessions;
pub mod standing;
pub mod waiting;
