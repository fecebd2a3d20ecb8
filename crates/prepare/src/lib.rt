// A payload prepared for its slot: refused with number and place, or the slot's bytes, the edits and both ids.
#![tactic(auto)]

pub mod build;
pub mod prepare;
