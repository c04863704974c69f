// Command patterns in SCPI notation: what is a pattern, and where does one go bad?
#![tactic(auto)]

pub mod bytes;
pub mod checking;

// A pattern has at most so many bytes.
pub const LONGEST: usize = 128;

// What is no pattern, and the place of its first bad byte, counted from 0: the one behind the end where it stops short.
#[derive(Clone, Copy, Debug, PartialEq, Eq)]
pub struct BadPattern {
    pub place: usize,
}
