// One delivery to an open connection: the stages of the model, from the bytes shown to the frames sent.
#![tactic(auto)]

pub mod deliver;
