// One payload's last result or status changed.
ghost use Rattle.std.specs.Prelude.{◌≡◌, ◌≤◌, ◌<◌};
ghost use Rattle.memory.specs.Memory.{slot_count};
ghost use Rattle.state.specs.Change.{changed_at, changed_in};
ghost use Rattle.state.specs.State.{with_result, with_status};

use super::find;
use super::state::State;

// The last result of the payload at place `i` of the list, by its magnitude.
pub fn set_result(state: State, i: usize, res: u32) -> State
    requires { i < slot_count }
    ensures { result ≡ changed_at (with_result res) state i }
{
    let mut payload = state.payloads[i];
    payload.result = res;
    let mut next = state;
    next.payloads[i] = payload;
    next
}

// The status of the payload at place `i` of the list.
pub fn set_status(state: State, i: usize, status: u32) -> State
    requires { i < slot_count }
    ensures { result ≡ changed_at (with_status status) state i }
{
    let mut payload = state.payloads[i];
    payload.status = status;
    let mut next = state;
    next.payloads[i] = payload;
    next
}

// The last result of the payload in a slot.
pub fn set_result_in(state: State, slot: u32, res: u32) -> State
    requires { state.count ≤ slot_count }
    ensures { result ≡ changed_in (with_result res) state slot }
{
    let Some(i) = find::with_slot(state, slot) else {
        return state;
    };
    set_result(state, i, res)
}
