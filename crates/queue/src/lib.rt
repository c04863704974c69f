// The waiting requests with their strings: how a request is laid and moved, and strings compared.
#![tactic(auto)]

pub mod requests;
mod same;
