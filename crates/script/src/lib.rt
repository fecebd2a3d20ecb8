// The console's language: a line read as a command. No function asks anything of its caller but the decoding of hex.
#![tactic(auto)]

pub mod command;
pub mod decimal;
pub mod fields;
pub mod hex;
