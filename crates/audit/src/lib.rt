// What a payload author asks: a symbol list and a file checked, and a payload prepared into buffers. No function asks anything of its caller.
#![tactic(auto)]

pub mod check;
pub mod preparing;
