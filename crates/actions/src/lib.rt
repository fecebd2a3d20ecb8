// The actions: unload, revert, apply, replace.
#![tactic(auto)]

pub mod action;
pub mod rules;
pub mod unload;
