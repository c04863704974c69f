// The list of allowed commands in the lent bytes: laid, wiped and asked.
#![tactic(auto)]

pub mod listing;
