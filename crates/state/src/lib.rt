// What the loader keeps between two calls, and the payloads by name and by slot.
#![tactic(auto)]

pub mod change;
pub mod find;
pub mod state;
pub mod steps;
