// Whole payloads prepared, and known cases of refusals and of the symbol list: each prints its lines, and all lines are compared
// with crates/vectors/stdout.
#![tactic(auto)]

mod lists;
mod payloads;
mod print;
mod refusals;

use std::io;

fn main(rt: HostRuntime) -> io::Result<()> {
    refusals::all(&rt)?;
    lists::all(&rt)?;
    payloads::all(&rt)
}
