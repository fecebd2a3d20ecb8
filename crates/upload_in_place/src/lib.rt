// An upload made in the records buffer: the state is not loaded, and only the bytes that change are written.
#![tactic(auto)]

pub mod uploading;
