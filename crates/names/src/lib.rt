// Payloads by name.
#![tactic(auto)]

ghost use Rattle.std.specs.Prelude.{◌≡◌, true, ◌≤◌};
ghost use Rattle.records.specs.Limits.{name_max};
ghost use Rattle.state.specs.Find.{is_named, with_name};
ghost use Rattle.ranges.specs.Ranges.{in_range};

use records::payload::Payload;
use state::state::State;
use words::bytes;

// Whether the payload has this name.
pub fn is_named(payload: Payload, name: &[u8]) -> bool
    requires { payload.name_length ≤ name_max }
    ensures { result ≡ is_named name.now payload }
{
    let kept = payload.name;
    let length = payload.name_length as usize;
    bytes::same(&kept[..length], name)
}

// The place in the list of the payload of this name.
pub fn with_name(state: State, name: &[u8]) -> Option<usize>
    requires { in_range state ≡ true }
    ensures { result ≡ with_name state name.now }
{
    for i in 0..state.count {
        if is_named(state.payloads[i], name) {
            return Some(i);
        }
    }
    None
}
