// Who may be granted a lock, the grant, and the pass over those that wait.
#![tactic(auto)]

pub mod grant_pass;
pub mod granting;
