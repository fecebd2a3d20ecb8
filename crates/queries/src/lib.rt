// The calls that change nothing: a payload's status, and the top build_id.
#![tactic(auto)]

pub mod get;
pub mod top_id;
