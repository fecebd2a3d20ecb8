// What the host lends: sizes, slots, and what start-up asks of them.
#![tactic(auto)]

pub mod config;
