// Readings under watch, in the lent words: a session's watch and record, by its slot. Whatever the words hold, they show both.
#![tactic(auto)]

pub mod floats;
pub mod sense;
