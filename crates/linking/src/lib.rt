// A payload's symbols: the value of each, looked up at its first use and kept.
#![tactic(auto)]

pub mod kept;
pub mod values;
