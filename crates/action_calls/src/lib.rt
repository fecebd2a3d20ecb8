// Start-up and the actions over the records buffer: the state is loaded from it and stored again. No function asks anything of its caller.
#![tactic(auto)]

pub mod acting;
pub mod starting;
