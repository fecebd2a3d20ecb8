// The payload entered: its id in the id store, its record last in the list.
ghost use Rattle.std.specs.Prelude.{◌≡◌, ◌+◌, ◌<◌, ◌≤◌, length};
ghost use Rattle.words.specs.Splice.{splice};
ghost use Rattle.records.specs.Limits.{name_max, id_max, records_max};
ghost use Rattle.memory.specs.Memory.{slot_count, id_at, ids_size};
ghost use Rattle.upload_record.specs.Record.{record_for, with_uploaded};

use prepare::prepare::Prepared;
use records::payload::Payload;
use state::state::State;

// The id, and zeros after it, as entry `slot` of the id store.
fn write_id(ids: &mut [u8], slot: usize, id: &[u8; Payload::ID_MAX])
    requires { id_at slot + id_max ≤ length ids.old }
    ensures { ids.new ≡ splice ids.old (id_at slot) id.now }
{
    words::bytes::copy(ids, Payload::ID_MAX * slot, id);
}

// The record of a payload that was prepared for this slot.
fn record_for(name: &[u8], slot: u32, prepared: Prepared) -> Payload
    requires { (length name.now ≤ name_max) × (prepared.edit_count ≤ records_max) }
    ensures { result ≡ record_for name.now slot prepared }
{
    let id = prepared.id;
    let dependency = prepared.dependency;
    let edits = prepared.edits;
    let mut one = Payload::named(name);
    one.slot = slot;
    one.status = State::CHECKED;
    one.id_length = id.length;
    one.dependency = dependency;
    one.edits = edits;
    one.edit_count = prepared.edit_count as u32;
    one
}

// The record of the payload that was prepared for this slot, under `name`; its id is written to the id store.
pub fn register(ids: &mut [u8], name: &[u8], slot: usize, prepared: Prepared) -> Payload
    requires slot_lt_slot_count { (slot < slot_count) × (length ids.old ≡ ids_size) }
    requires name_len_bound { (length name.now ≤ name_max) × (prepared.edit_count ≤ records_max) }
    ensures value { result ≡ record_for name.now slot prepared }
    ensures ids_after { ids.new ≡ splice ids.old (id_at slot) prepared.id.bytes }
{
    let id = prepared.id;
    write_id(ids, slot, &id.bytes);
    record_for(name, slot as u32, prepared)
}

// The state with one payload more.
fn with_uploaded(state: State, payload: Payload) -> State
    requires { state.count < slot_count }
    ensures { result ≡ with_uploaded state payload }
{
    let count = state.count;
    let mut next = state;
    next.version = std::num::wrapping_add_u32(state.version, 1);
    next.payloads[count] = payload;
    next.count = count + 1;
    next
}

// The payload that was prepared for this slot, under `name`: the state after it.
pub fn enter(state: State, ids: &mut [u8], name: &[u8], slot: usize, prepared: Prepared) -> State
    requires count_lt_slot_count { (state.count < slot_count) × (slot < slot_count) × (length ids.old ≡ ids_size) }
    requires name_len_bound { (length name.now ≤ name_max) × (prepared.edit_count ≤ records_max) }
    ensures value { result ≡ with_uploaded state (record_for name.now slot prepared) }
    ensures ids_after { ids.new ≡ splice ids.old (id_at slot) prepared.id.bytes }
{
    with_uploaded(state, register(ids, name, slot, prepared))
}
