// A payload's file as an ELF object: its sections, each with its kind.
#![tactic(auto)]

pub mod sections;
