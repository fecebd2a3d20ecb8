// The whole state written over the records buffer.
ghost use Rattle.std.specs.Prelude.{◌≡◌, length};
ghost use Rattle.state_bytes.specs.Layout.{records_size};
ghost use Rattle.state_bytes.specs.Stored.{HoldsState};

use super::{head, payloads};
use state::state::State;

// The state's bytes over the buffer; read back, they give the state.
pub fn store(b: &mut [u8], state: State)
    requires { length b.old ≡ records_size }
    ensures { HoldsState state b.new }
{
    let config = state.config;
    let job = state.job;
    let stack = state.stack;
    let payloads = state.payloads;
    head::store_config(b, config);
    head::store_counts(b, state);
    head::store_job(b, job);
    head::store_stack(b, stack);
    payloads::store_payloads(b, payloads);
}
