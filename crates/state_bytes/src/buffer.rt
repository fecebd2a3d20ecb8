// The records buffer: which bytes are a state's, and the state loaded.
ghost use Rattle.std.specs.Prelude.{◌≡◌, length};
ghost use Rattle.state_bytes.specs.Layout.{records_size};
ghost use Rattle.state_bytes.specs.Stored.{state_in, is_state};

use super::{head, layout, numbers, payloads};
use state::state::State;

// The bytes of the records buffer.
pub fn size() -> usize
    ensures { result ≡ records_size }
{
    layout::RECORDS_SIZE
}

// Whether the bytes are those of a state.
pub fn is_state(b: &[u8]) -> bool
    ensures { result ≡ is_state b.now }
{
    if b.len() != layout::RECORDS_SIZE {
        return false;
    }
    if !head::flags_ok(b) {
        return false;
    }
    payloads::kinds_ok(b)
}

// The state that the bytes hold.
pub fn load(b: &[u8]) -> State
    requires { length b.now ≡ records_size }
    ensures { result ≡ state_in b.now }
{
    let config = head::load_config(b);
    let count = numbers::load8(b, layout::COUNT_AT) as usize;
    let depth = numbers::load8(b, layout::COUNT_AT + 8) as usize;
    let version = numbers::load4(b, layout::COUNT_AT + 16);
    let job = head::load_job(b);
    let stack = head::load_stack(b);
    let payloads = payloads::load_payloads(b);
    State {
        config,
        version,
        count,
        payloads,
        depth,
        stack,
        job,
    }
}
