// The payloads read.
ghost use Rattle.std.specs.Prelude.{◌≡◌, ◌+◌, ◌≤◌, length};
ghost use Rattle.words.specs.Splice.{part};
ghost use Rattle.records.specs.Limits.{name_max};
ghost use Rattle.state_bytes.specs.Flags.{kinds_ok};
ghost use Rattle.state_bytes.specs.Layout.{payload_size, records_size, payloads_place};
ghost use Rattle.state_bytes.specs.Stored.{dependency_at, payload_at, payloads_at};

use super::{edits, layout, numbers};
use memory::config::Config;
use records::payload::{BuildId, Payload};

fn load_name(b: &[u8], at: usize) -> [u8; Payload::NAME_MAX]
    requires { at + name_max ≤ length b.now }
    ensures { result ≡ part b.now at name_max }
{
    let mut name = [0u8; Payload::NAME_MAX];
    let end = at + Payload::NAME_MAX;
    words::bytes::copy(&mut name, 0, &b[at..end]);
    name
}

fn load_dependency(b: &[u8], at: usize) -> BuildId
    requires { at + payload_size ≤ length b.now }
    ensures { result ≡ dependency_at b.now at }
{
    let mut bytes = [0u8; Payload::ID_MAX];
    let start = at + layout::DEPENDENCY_AT;
    let end = start + Payload::ID_MAX;
    words::bytes::copy(&mut bytes, 0, &b[start..end]);
    let length = numbers::load4(b, at + (Payload::NAME_MAX + 20));
    BuildId { bytes, length }
}

pub(crate) fn load_payload(b: &[u8], at: usize) -> Payload
    requires { at + payload_size ≤ length b.now }
    ensures { result ≡ payload_at b.now at }
{
    let name = load_name(b, at);
    let name_length = numbers::load4(b, at + Payload::NAME_MAX);
    let slot = numbers::load4(b, at + (Payload::NAME_MAX + 4));
    let status = numbers::load4(b, at + (Payload::NAME_MAX + 8));
    let result = numbers::load4(b, at + (Payload::NAME_MAX + 12));
    let id_length = numbers::load4(b, at + (Payload::NAME_MAX + 16));
    let dependency = load_dependency(b, at);
    let edit_count = numbers::load4(b, at + layout::EDIT_COUNT_AT);
    let edits = edits::load_edits(b, at + layout::EDITS_AT);
    Payload {
        name,
        name_length,
        slot,
        status,
        result,
        id_length,
        dependency,
        edits,
        edit_count,
    }
}

pub(crate) fn load_payloads(b: &[u8]) -> [Payload; Config::SLOTS]
    requires { length b.now ≡ records_size }
    ensures { result ≡ payloads_at b.now payloads_place }
{
    let none = Payload::empty();
    let mut payloads = [none; Config::SLOTS];
    for (i, payload) in payloads.iter_mut().enumerate() {
        *payload = load_payload(b, layout::PAYLOADS_AT + layout::PAYLOAD_SIZE * i);
    }
    payloads
}

// Whether the edits of every payload are jumps or no-ops.
pub(crate) fn kinds_ok(b: &[u8]) -> bool
    requires { length b.now ≡ records_size }
    ensures { result ≡ kinds_ok b.now }
{
    (0..Config::SLOTS).all(|i| {
        edits::edits_ok(
            b,
            layout::PAYLOADS_AT + layout::PAYLOAD_SIZE * i + layout::EDITS_AT,
        )
    })
}
