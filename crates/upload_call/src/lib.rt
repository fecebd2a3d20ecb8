// An upload over the records buffer: it is made in it. The function asks nothing of its caller.
#![tactic(auto)]

pub mod uploading;
