// What a line of a script does: the console's numbers, the loader's state and memory after it, and the bytes to write.
#![tactic(auto)]

mod asking;
pub mod buffers;
pub mod console;
mod fields;
pub mod lines;
mod starting;
mod uploading;
