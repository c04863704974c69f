// The outcome of a delivery. The C interface returns its number, counted from 0.
#[derive(Clone, Copy, Debug, PartialEq, Eq)]
pub enum Outcome {
    MoreNeeded,
    Skipped,
    Held,
    Ignored,
    ErrorSent,
    Closed,
    Acted,
}
