// One payload's last result changed.
ghost use Rattle.std.specs.Prelude.{◌≡◌, true, ◌≤◌};
ghost use Rattle.memory.specs.Memory.{slot_count};
ghost use Rattle.state.specs.Change.{changed_in};
ghost use Rattle.state.specs.State.{with_result};
ghost use Rattle.state_bytes.specs.Stored.{state_in, is_state, HoldsState};

use in_place::range;
use state_bytes::parts;
use state_writes::single;

// The last result of the payload in a slot.
pub(crate) fn set_result_in(b: &mut [u8], slot: u32, res: u32)
    requires { (is_state b.old ≡ true) × ((state_in b.old).count ≤ slot_count) }
    ensures { HoldsState (changed_in (with_result res) (state_in b.old) slot) b.new }
{
    let Some(i) = range::with_slot(b, slot) else {
        return;
    };
    let mut payload = parts::payload(b, i);
    payload.result = res;
    single::put_payload(b, i, payload);
}
