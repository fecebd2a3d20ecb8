// Report, tick and work step over the records buffer: each is made in it. No function asks anything of its caller.
#![tactic(auto)]

pub mod rendezvous_calls;
pub mod working;
