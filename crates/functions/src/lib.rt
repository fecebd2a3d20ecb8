// Function records: what each asks for, the edits that they become, and that no two edits touch.
#![tactic(auto)]

pub mod edits;
pub mod function;
pub(crate) mod pairs;
pub mod read;
