// A job's next work step: its edit, and the state after it.
#![tactic(auto)]

pub mod end;
pub mod step;
