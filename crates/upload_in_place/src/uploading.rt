// The slot for a payload, and the payload entered.
ghost use Rattle.std.specs.Prelude.{◌≡◌, ◌<◌, ◌≤◌, true, length};
ghost use Rattle.words.specs.Splice.{splice};
ghost use Rattle.records.specs.Limits.{name_max, records_max};
ghost use Rattle.memory.specs.Memory.{slot_count, id_at, ids_size};
ghost use Rattle.state_bytes.specs.Layout.{records_size};
ghost use Rattle.state_bytes.specs.Stored.{state_in, is_state, HoldsState};
ghost use Rattle.upload_room.specs.Room.{request_rules, room_by};
ghost use Rattle.upload_record.specs.Record.{record_for, with_uploaded};

use in_place::{find, range};
use outlines::outline;
use prepare::prepare::Prepared;
use records::payload::Payload;
use records::refusal::{self, Place, Reason, Refusal};
use state_bytes::parts;
use state_writes::single;
use upload_record::enter;
use upload_room::room;

// The slot that the payload takes, or why it gets none, by the lengths of arena and id store.
pub fn room_for(
    b: &[u8],
    arena: usize,
    ids: usize,
    name: &[u8],
    list: &[u8],
) -> Result<usize, Refusal>
    requires { length b.now ≡ records_size }
    ensures { result ≡ room_by (state_in b.now)
        (request_rules (state_in b.now) arena ids name.now list.now) }
{
    if !room::sizes_ok(range::in_range(b), arena, ids) {
        return refusal::refused(Reason::Invalid, Place::Nowhere);
    }
    let loaded = find::with_name(b, name);
    let free = outline::free_slot(range::outline(b));
    room::find_room(name, list, loaded, free)
}

// The record put last in the list.
fn append(b: &mut [u8], payload: Payload)
    requires { (is_state b.old ≡ true) × ((state_in b.old).count < slot_count) }
    ensures { HoldsState (with_uploaded (state_in b.old) payload) b.new }
{
    let count = parts::count(b);
    let version = parts::version(b);
    single::put_payload(b, count, payload);
    single::put_count(b, count + 1);
    single::put_version(b, std::num::wrapping_add_u32(version, 1));
}

// The payload that was prepared for this slot, under `name`: its id in the id store, its record last in the list.
pub fn enter(b: &mut [u8], ids: &mut [u8], name: &[u8], slot: usize, prepared: Prepared)
    requires b_value { (is_state b.old ≡ true) × ((state_in b.old).count < slot_count) × (slot < slot_count) × (length ids.old ≡ ids_size) }
    requires name_len_bound { (length name.now ≤ name_max) × (prepared.edit_count ≤ records_max) }
    ensures holds_state { HoldsState (with_uploaded (state_in b.old) (record_for name.now slot prepared)) b.new }
    ensures ids_after { ids.new ≡ splice ids.old (id_at slot) prepared.id.bytes }
{
    append(b, enter::register(ids, name, slot, prepared));
}
