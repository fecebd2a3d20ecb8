// The slot that an upload takes: the rules up to it.
#![tactic(auto)]

pub mod room;
