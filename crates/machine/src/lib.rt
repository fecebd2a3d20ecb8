// What depends on the processor: relocation types and their fields, the jump, the no-op fill. Nothing else does.
#![tactic(auto)]

pub mod fields;
pub mod host;
pub mod processor;
