// What an action asks of the request and of its payload.
ghost use Rattle.std.specs.Prelude.{◌≡◌, ◌≤◌, true, length};
ghost use Rattle.memory.specs.Memory.{ids_size};
ghost use Rattle.ranges.specs.Ranges.{in_range};
ghost use Rattle.actions.specs.Actions.{action_sizes_ok, is_busy, target_of, base_ok, condition_rules, dependency_of, is_top, status_for};
ghost use Rattle.words.specs.Order.{equal};
ghost use Rattle.records.specs.Limits.{id_max};

use memory::config::Config;
use queries::top_id;
use records::name;
use records::payload::Payload;
use records::refusal::{self, Place, Reason, Refusal};
use state::state::{Job, State};
use words::bytes;

pub(crate) fn sizes_ok(state: State, arena: usize, undo: usize, ids: usize, build_id: usize) -> bool
    ensures { result ≡ action_sizes_ok state arena undo ids build_id }
{
    if !ranges::ranges::in_range(state) {
        return false;
    }
    if arena != Config::ARENA_SIZE {
        return false;
    }
    if undo != Config::UNDO_SIZE {
        return false;
    }
    if ids != Config::IDS_SIZE {
        return false;
    }
    let config = state.config;
    build_id == config.id_length as usize
}

// Whether a job is in the way of this command on this payload.
fn is_busy(state: State, command: u32, payload: Payload) -> bool
    ensures { result ≡ is_busy state command payload }
{
    let job = state.job;
    if job.action == 0 {
        return false;
    }
    if command != Job::UNLOAD {
        return true;
    }
    job.slot == payload.slot
}

// The payload's place in the list, or why it cannot be acted on: name, 2, command, 16.
pub(crate) fn find_target(state: State, name: &[u8], command: u32) -> Result<usize, Refusal>
    requires { in_range state ≡ true }
    ensures { result ≡ target_of state name.now command }
{
    if !name::is_name(name) {
        return refusal::refused(Reason::Invalid, Place::Nowhere);
    }
    let Some(place) = names::with_name(state, name) else {
        return refusal::refused(Reason::NotLoaded, Place::Nowhere);
    };
    if command < Job::UNLOAD {
        return refusal::refused(Reason::Invalid, Place::Nowhere);
    }
    if Job::REPLACE < command {
        return refusal::refused(Reason::Invalid, Place::Nowhere);
    }
    if is_busy(state, command, state.payloads[place]) {
        return refusal::refused(Reason::Busy, Place::Nowhere);
    }
    Ok(place)
}

fn status_for(command: u32) -> u32
    ensures { result ≡ status_for command }
{
    if command == Job::REVERT {
        return State::APPLIED;
    }
    State::CHECKED
}

fn is_top(state: State, payload: Payload) -> bool
    requires { in_range state ≡ true }
    ensures { result ≡ is_top state payload }
{
    if state.depth < 1 {
        return false;
    }
    state.stack[state.depth - 1] == payload.slot
}

// Whether the payload depends on this id.
fn depends_on(payload: Payload, id: &[u8]) -> bool
    requires { payload.dependency.length ≤ id_max }
    ensures { result ≡ equal (dependency_of payload) id.now }
{
    let dependency = payload.dependency;
    let kept = dependency.bytes;
    let length = dependency.length as usize;
    bytes::same(&kept[..length], id)
}

// Whether the stack is what the command asks for.
fn base_ok<'a>(
    state: State,
    build_id: &'a [u8],
    ids: &'a [u8],
    command: u32,
    payload: Payload,
) -> bool
    requires { (in_range state ≡ true) × (length ids.now ≡ ids_size) × (payload.dependency.length ≤ id_max) }
    ensures { result ≡ base_ok state build_id.now ids.now command payload }
{
    if command == Job::REVERT {
        return is_top(state, payload);
    }
    if command == Job::APPLY {
        return depends_on(payload, top_id::top_id(state, build_id, ids));
    }
    if command == Job::REPLACE {
        return depends_on(payload, build_id);
    }
    true
}

// Status, then the stack.
pub(crate) fn check_conditions<'a>(
    state: State,
    build_id: &'a [u8],
    ids: &'a [u8],
    command: u32,
    payload: Payload,
) -> Result<(), Refusal>
    requires { (in_range state ≡ true) × (length ids.now ≡ ids_size) × (payload.dependency.length ≤ id_max) }
    ensures { result ≡ condition_rules state build_id.now ids.now command payload }
{
    if payload.status != status_for(command) {
        return refusal::refused(Reason::Invalid, Place::Nowhere);
    }
    if !base_ok(state, build_id, ids, command, payload) {
        return refusal::refused(Reason::WrongBase, Place::Nowhere);
    }
    Ok(())
}
