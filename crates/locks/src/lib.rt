// The lock rules in code: requests, releases, and a release that takes effect later. Each function does to the lent memory and the
// output what the model says of one lock event.
#![tactic(auto)]

pub mod complete;
pub mod quick;
pub mod release;
pub mod request;

// whoever asks in few steps asks whether a release stands, too
pub use holding::standing;
