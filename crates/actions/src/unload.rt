// A payload unloaded.
ghost use Rattle.std.specs.Prelude.{◌≡◌, ◌<◌, ◌≤◌, length, Some};
ghost use Rattle.memory.specs.Memory.{slot_count, arena_size, undo_size, ids_size};
ghost use Rattle.actions.specs.Actions.{lent, removed_at, unloaded_at, cleared};

use machine::processor;
use memory::config::Config;
use records::payload::Payload;
use state::state::State;

// The list without the payload at place `i`.
fn without(payloads: [Payload; Config::SLOTS], i: usize) -> [Payload; Config::SLOTS]
    requires { i < slot_count }
    ensures { result ≡ removed_at i payloads }
{
    let mut left = payloads;
    left[i..Config::SLOTS - 1].copy_from_slice(&payloads[i + 1..]);
    left[Config::SLOTS - 1] = Payload::empty();
    left
}

// The state without that payload.
pub(crate) fn unloaded(state: State, i: usize) -> State
    requires { (i < state.count) × (state.count ≤ slot_count) }
    ensures { result ≡ unloaded_at state (Some i) }
{
    let payloads = state.payloads;
    let rest = without(payloads, i);
    let mut next = state;
    next.version = std::num::wrapping_add_u32(state.version, 1);
    next.count = state.count - 1;
    next.payloads = rest;
    next
}

// The slot and its store entries zeroed.
pub(crate) fn clear(arena: &mut [u8], undo: &mut [u8], ids: &mut [u8], slot: usize)
    requires { (slot < slot_count) × (length arena.old ≡ arena_size) × (length undo.old ≡ undo_size) × (length ids.old ≡ ids_size) }
    ensures { lent arena.new undo.new ids.new
        ≡ cleared slot (lent arena.old undo.old ids.old) }
{
    let records = Payload::RECORDS_MAX * processor::EDIT_MAX as usize;
    words::bytes::fill(arena, Payload::PLACED_MAX * slot, Payload::PLACED_MAX, 0);
    words::bytes::fill(undo, records * slot, records, 0);
    words::bytes::fill(ids, Payload::ID_MAX * slot, Payload::ID_MAX, 0);
}
