// Commands against patterns: which commands a pattern matches, and lists of patterns: what is refused, what is allowed.
#![tactic(auto)]

pub mod allowing;
pub mod listing;
pub mod matching;

// Why a list of patterns is refused: its first bad pattern, by its number, and the place where it goes bad, each counted from 0; or it is too long.
#[derive(Clone, Copy, Debug, PartialEq, Eq)]
pub enum ListFault {
    BadPattern { pattern: usize, place: usize },
    TooMany,
}
