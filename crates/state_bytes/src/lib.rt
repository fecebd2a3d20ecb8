// The state as the bytes of the records buffer that the host lends: which bytes are a state's, and what they hold.
#![tactic(auto)]

pub mod buffer;
pub(crate) mod edits;
pub(crate) mod head;
pub mod layout;
pub(crate) mod numbers;
pub mod parts;
pub(crate) mod payloads;
