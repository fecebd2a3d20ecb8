// The C boundary: numbers and byte slices, as include/urddolwy.h declares them. No function asks anything of its caller.
#![tactic(auto)]

pub mod acting;
pub mod asking;
pub mod check;
pub mod preparing;
pub mod reporting;
pub mod starting;
pub mod uploading;
pub mod working;
