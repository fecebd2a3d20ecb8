// A work step: one edit of the text, and the state after it.
#![tactic(auto)]

pub mod edit;
pub mod work;
