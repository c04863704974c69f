// Who shares a lock, and its string; a request or a session that leaves, and what it leaves behind wiped.
#![tactic(auto)]

pub mod leaving;
pub mod sharing;
pub mod wiping;
