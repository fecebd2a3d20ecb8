// What target/lib/liburddolwy.a exports: the functions of `abi`, under the same names and with the same clauses. A crate is either a library
// or a static library, and other crates stand on `abi`.
#![tactic(auto)]

pub mod acting;
pub mod asking;
pub mod check;
pub mod preparing;
pub mod reporting;
pub mod starting;
pub mod uploading;
pub mod working;
