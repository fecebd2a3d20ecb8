// Relocation: the fields to store, and the slot's bytes after all relocations.
#![tactic(auto)]

pub mod fields;
pub mod relocate;
