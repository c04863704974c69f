// The server's state in memory that the host lends: words for everything but lock strings and the text of the allowed commands, bytes for those. Nothing above this crate
// knows where anything stands, but for `queue`, which lays requests and strings, and `allowed`, which lays the list (`layout` and `words` are public for these two alone).
#![tactic(auto)]

pub mod channels;
pub mod fresh;
pub mod holders;
pub mod layout;
pub mod search;
pub mod sizes;
pub mod tables;
pub mod words;
