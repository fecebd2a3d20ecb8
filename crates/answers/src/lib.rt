// The console's answers as lines. Each function writes at `at` and returns the place behind what it wrote.
#![tactic(auto)]

pub mod lines;
pub mod listed;
mod numbers;
mod pieces;
