// The outline of a state, what is found by it, and the edits of its job counted.
#![tactic(auto)]

pub mod counts;
pub mod outline;
