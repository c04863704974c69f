// What a delivery does to the lent memory and the output, once it is decided what is to be done.
#![tactic(auto)]

pub mod asynchronous;
pub mod numbering;
pub mod synchronous;
