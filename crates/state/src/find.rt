// Payloads by slot.
ghost use Rattle.std.specs.Prelude.{◌≡◌, ◌≤◌};
ghost use Rattle.memory.specs.Memory.{slot_count};
ghost use Rattle.state.specs.Find.{with_slot, payload_in};

use super::state::State;
use records::payload::Payload;

// The place in the list of the payload in this slot.
pub fn with_slot(state: State, slot: u32) -> Option<usize>
    requires { state.count ≤ slot_count }
    ensures { result ≡ with_slot state slot }
{
    for i in 0..state.count {
        if state.payloads[i].slot == slot {
            return Some(i);
        }
    }
    None
}

// The payload in this slot; the empty record where there is none.
pub fn payload_in(state: State, slot: u32) -> Payload
    requires { state.count ≤ slot_count }
    ensures { result ≡ payload_in state slot }
{
    let Some(i) = with_slot(state, slot) else {
        return Payload::empty();
    };
    state.payloads[i]
}
