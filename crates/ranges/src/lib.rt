// Whether the numbers of a state lie in their ranges.
#![tactic(auto)]

pub mod ranges;
