// What the calls look up in the records buffer: the outline of its state, whether its numbers lie in their ranges, the payload of a name or a slot. The state is not loaded.
#![tactic(auto)]

pub mod find;
pub mod range;
