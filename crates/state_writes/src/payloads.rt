// The payloads written.
ghost use Rattle.std.specs.Prelude.{◌≡◌, map, ◌+◌, ◌≤◌, ◌<◌, ◌^◌, length};
ghost use Rattle.words.specs.Splice.{splice};
ghost use Rattle.records.specs.Limits.{name_max, id_max};
ghost use Rattle.memory.specs.Memory.{slot_count};
ghost use Rattle.state_bytes.specs.Fields.{chained};
ghost use Rattle.state_bytes.specs.Layout.{payload_size, records_size, payloads_place};
ghost use Rattle.state_bytes.specs.Stored.{number_fields, payload_bytes, payload_at, payloads_at};

use super::{edits, numbers};
use memory::config::Config;
use records::payload::Payload;
use state_bytes::layout;

// An array of a record has a known length only behind a reference to an array.
fn store_name(b: &mut [u8], at: usize, name: &[u8; Payload::NAME_MAX])
    requires { at + name_max ≤ length b.old }
    ensures b_after { b.new ≡ splice b.old at name.now }
    ensures name_len { length name.now ≡ name_max }
{
    words::bytes::copy(b, at, name);
}

fn store_id(b: &mut [u8], at: usize, id: &[u8; Payload::ID_MAX])
    requires { at + id_max ≤ length b.old }
    ensures b_after { b.new ≡ splice b.old at id.now }
    ensures id_len { length id.now ≡ id_max }
{
    words::bytes::copy(b, at, id);
}

// The numbers behind the name, each of which fits its 4 bytes.
fn store_numbers(b: &mut [u8], at: usize, payload: Payload)
    requires { at + payload_size ≤ length b.old }
    ensures b_after { b.new ≡ splice b.old (at + name_max) (chained (number_fields payload)) }
    ensures name_length_bound { (payload.name_length < 256 ^ 4) × (payload.slot < 256 ^ 4) × (payload.status < 256 ^ 4)
        × (payload.result < 256 ^ 4) × (payload.id_length < 256 ^ 4) × (payload.dependency.length < 256 ^ 4) }
{
    let start = at + Payload::NAME_MAX;
    let dependency = payload.dependency;
    numbers::store4(b, start, payload.name_length);
    numbers::store4(b, start + 4, payload.slot);
    numbers::store4(b, start + 8, payload.status);
    numbers::store4(b, start + 12, payload.result);
    numbers::store4(b, start + 16, payload.id_length);
    numbers::store4(b, start + 20, dependency.length);
}

// What is stored is read back.
pub(crate) fn store_payload(b: &mut [u8], at: usize, payload: Payload)
    requires { at + payload_size ≤ length b.old }
    ensures b_after { b.new ≡ splice b.old at (payload_bytes payload) }
    ensures payload_len { (length (payload_bytes payload) ≡ payload_size) × (payload_at (payload_bytes payload) 0 ≡ payload) }
{
    let name = payload.name;
    let dependency = payload.dependency;
    let id = dependency.bytes;
    let edits = payload.edits;
    store_name(b, at, &name);
    store_numbers(b, at, payload);
    store_id(b, at + layout::DEPENDENCY_AT, &id);
    numbers::store4(b, at + layout::EDIT_COUNT_AT, payload.edit_count);
    edits::store_edits(b, at + layout::EDITS_AT, edits);
}

pub(crate) fn store_payloads(b: &mut [u8], payloads: [Payload; Config::SLOTS])
    requires { length b.old ≡ records_size }
    ensures b_after { b.new ≡ splice b.old payloads_place (chained (map payload_bytes payloads)) }
    ensures payloads_len { (length payloads ≡ slot_count) × (payloads_at (chained (map payload_bytes payloads)) 0 ≡ payloads) }
{
    for (i, payload) in payloads.iter().enumerate() {
        store_payload(b, layout::PAYLOADS_AT + layout::PAYLOAD_SIZE * i, *payload);
    }
}
