// A payload read in document 01's order: what the file alone decides.
#![tactic(auto)]

pub(crate) mod counts;
pub mod read;
pub(crate) mod relocation_headers;
