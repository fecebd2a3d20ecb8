// The ground layer: numbers in bytes, copies, comparisons and addresses modulo 2^64. Every other crate stands on these.
#![tactic(auto)]

pub mod address;
pub mod be;
pub mod bytes;
pub mod le;
