// The top build-id.
ghost use Rattle.std.specs.Prelude.{◌≡◌, true, length};
ghost use Rattle.memory.specs.Memory.{ids_size};
ghost use Rattle.ranges.specs.Ranges.{in_range};
ghost use Rattle.queries.specs.TopId.{top_id, top_place, id_sizes_ok, HandsOut};

use memory::config::Config;
use records::payload::Payload;
use state::find;
use state::state::State;

// Where an id stands: 0 for the hypervisor's build-id or 1 for the id store, from where on, and how long.
#[derive(Clone, Copy)]
pub struct IdPlace {
    pub buffer: u32,
    pub offset: u32,
    pub length: u32,
}

// The id of the payload that was applied last, a part of the id store; the hypervisor's where nothing is applied.
pub fn top_id<'a>(state: State, build_id: &'a [u8], ids: &'a [u8]) -> &'a [u8]
    requires { (in_range state ≡ true) × (length ids.now ≡ ids_size) }
    ensures { result.now ≡ top_id state build_id.now ids.now }
{
    if state.depth == 0 {
        return build_id;
    }
    let slot = state.stack[state.depth - 1];
    let payload = find::payload_in(state, slot);
    let start = Payload::ID_MAX * slot as usize;
    let end = start + payload.id_length as usize;
    &ids[start..end]
}

// The place of the same part.
pub fn top_place(state: State) -> IdPlace
    requires { in_range state ≡ true }
    ensures { result ≡ top_place state }
{
    let config = state.config;
    if state.depth == 0 {
        return IdPlace {
            buffer: 0,
            offset: 0,
            length: config.id_length,
        };
    }
    let top = state.stack[state.depth - 1];
    let payload = find::payload_in(state, top);
    IdPlace {
        buffer: 1,
        offset: Payload::ID_MAX as u32 * top,
        length: payload.id_length,
    }
}

pub fn sizes_ok(state: State, build_id: usize, ids: usize) -> bool
    ensures { result ≡ id_sizes_ok state build_id ids }
{
    if !ranges::ranges::in_range(state) {
        return false;
    }
    let config = state.config;
    if build_id != config.id_length as usize {
        return false;
    }
    ids == Config::IDS_SIZE
}

// The same for any state and any sizes: the empty part where one of them is wrong.
pub fn top_build_id<'a>(state: State, build_id: &'a [u8], ids: &'a [u8]) -> &'a [u8]
    ensures { HandsOut state build_id.now ids.now result.now }
{
    if !sizes_ok(state, build_id.len(), ids.len()) {
        return &build_id[0..0];
    }
    top_id(state, build_id, ids)
}
