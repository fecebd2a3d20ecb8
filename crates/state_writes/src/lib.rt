// The state written over the bytes of the records buffer: all of it, or one part.
#![tactic(auto)]

pub(crate) mod edits;
pub(crate) mod head;
pub(crate) mod numbers;
pub(crate) mod payloads;
pub mod single;
pub mod whole;
