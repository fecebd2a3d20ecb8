// One payload's status changed.
ghost use Rattle.std.specs.Prelude.{◌≡◌, true, ◌<◌};
ghost use Rattle.memory.specs.Memory.{slot_count};
ghost use Rattle.state.specs.Change.{changed_at};
ghost use Rattle.state.specs.State.{with_status};
ghost use Rattle.state_bytes.specs.Stored.{state_in, is_state, HoldsState};

use state_bytes::parts;
use state_writes::single;

// The status of the payload at place `i` of the list.
pub(crate) fn set_status(b: &mut [u8], i: usize, status: u32)
    requires { (is_state b.old ≡ true) × (i < slot_count) }
    ensures { HoldsState (changed_at (with_status status) (state_in b.old) i) b.new }
{
    let mut payload = parts::payload(b, i);
    payload.status = status;
    single::put_payload(b, i, payload);
}
