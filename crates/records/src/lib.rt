// The declared types of the loader: refusals with their places, edits, and the payload's record with its limits and its name's rule.
#![tactic(auto)]

pub mod name;
pub mod payload;
pub mod refusal;
