// The body of a journal entry: one event, then the frames that it gave. docs/JOURNAL.md has the layout as a table.
#![tactic(auto)]

pub mod body;
pub mod events;
pub mod rows;
