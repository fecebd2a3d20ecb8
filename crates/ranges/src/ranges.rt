// Whether every number of a state lies in its range.
ghost use Rattle.std.specs.Prelude.{◌≡◌, not, ◌&&◌, ◌||◌, ◌≤◌, take};
ghost use Rattle.words.specs.Find.{every};
ghost use Rattle.records.specs.Limits.{records_max};
ghost use Rattle.machine.specs.Host.{machine_of};
ghost use Rattle.memory.specs.Memory.{slot_count};
ghost use Rattle.state.specs.Find.{is_taken};
ghost use Rattle.state.specs.State.{is_standing, stack_of};
ghost use Rattle.outlines.specs.Outline.{Outlines};
ghost use Rattle.ranges.specs.Ranges.{
  is_edit_length,
  edit_in_range,
  name_in_range,
  ids_in_range,
  edits_in_range,
  is_status,
  payload_in_range,
  is_job_action,
  stack_fits,
  job_in_range,
  in_range,
};

use machine::processor::Processor;
use memory::config::Config;
use outlines::outline::Outline;
use outlines::{counts, outline};
use records::name;
use records::payload::{Edit, EditKind, Payload};
use state::state::{Job, State};

fn is_edit_length(processor: Processor, kind: EditKind, length: u32) -> bool
    ensures { result ≡ is_edit_length (machine_of processor) kind length }
{
    match kind {
        EditKind::Jump(_) => length as u64 == processor.jump_length(),
        EditKind::Fill => processor.is_fill_size(length as u64),
    }
}

fn edit_in_range(config: Config, edit: Edit) -> bool
    ensures { result ≡ edit_in_range config edit }
{
    let processor = config.processor;
    let kind = edit.kind;
    if !is_edit_length(processor, kind, edit.length) {
        return false;
    }
    edit.offset as u64 + edit.length as u64 <= config.text_length
}

// The first `count` of these edits.
fn all_edits_in_range(config: Config, edits: [Edit; Payload::RECORDS_MAX], count: usize) -> bool
    requires { count ≤ records_max }
    ensures { result ≡ every (edit_in_range config) (take count edits) }
{
    edits[..count]
        .iter()
        .all(|edit| edit_in_range(config, *edit))
}

fn name_in_range(payload: Payload) -> bool
    ensures { result ≡ name_in_range payload }
{
    let length = payload.name_length as usize;
    if Payload::NAME_MAX < length {
        return false;
    }
    let kept = payload.name;
    name::is_name(&kept[..length])
}

fn ids_in_range(payload: Payload) -> bool
    ensures { result ≡ ids_in_range payload }
{
    let id = payload.id_length as usize;
    let depends = payload.dependency;
    let dependency = depends.length as usize;
    if id < Payload::ID_MIN {
        return false;
    }
    if Payload::ID_MAX < id {
        return false;
    }
    if dependency < Payload::ID_MIN {
        return false;
    }
    dependency <= Payload::ID_MAX
}

fn edits_in_range(config: Config, payload: Payload) -> bool
    ensures { result ≡ edits_in_range config payload }
{
    let count = payload.edit_count as usize;
    if count < 1 {
        return false;
    }
    if Payload::RECORDS_MAX < count {
        return false;
    }
    let edits = payload.edits;
    all_edits_in_range(config, edits, count)
}

fn is_status(status: u32) -> bool
    ensures { result ≡ is_status status }
{
    if status == State::CHECKED {
        return true;
    }
    status == State::APPLIED
}

pub fn payload_in_range(config: Config, payload: Payload) -> bool
    ensures { result ≡ payload_in_range config payload }
{
    if Config::SLOTS <= payload.slot as usize {
        return false;
    }
    if !is_status(payload.status) {
        return false;
    }
    if !name_in_range(payload) {
        return false;
    }
    if !ids_in_range(payload) {
        return false;
    }
    edits_in_range(config, payload)
}

fn stack_in_range(outline: Outline) -> bool
    requires { (outline.count ≤ slot_count) × (outline.depth ≤ slot_count) }
    ensures { (s : State) → Outlines outline s → result ≡ every (is_taken s) (stack_of s) }
{
    outline.stack[..outline.depth].iter().all(|slot| matches!(
        outline::with_slot(outline, *slot),
        Some(_)
    ))
}

fn is_job_action(action: u32) -> bool
    ensures { result ≡ is_job_action action }
{
    if action < Job::REVERT {
        return false;
    }
    action <= Job::REPLACE
}

fn stack_fits(outline: Outline) -> bool
    ensures { (s : State) → Outlines outline s → result ≡ stack_fits s }
{
    if outline.action == Job::REVERT {
        return 0 < outline.depth;
    }
    if outline.action == Job::APPLY {
        return outline.depth < outline.count;
    }
    true
}

fn job_in_range(outline: Outline) -> bool
    requires { (outline.count ≤ slot_count) × (outline.depth ≤ slot_count) }
    ensures { (s : State) → Outlines outline s → result ≡ job_in_range s }
{
    if !is_job_action(outline.action) {
        return false;
    }
    let Some(_) = outline::with_slot(outline, outline.slot) else {
        return false;
    };
    if !stack_fits(outline) {
        return false;
    }
    if outline.time < 1 {
        return false;
    }
    (outline.steps as u64) < counts::all_steps(outline)
}

// Whether the stack and the job of every state with this outline are in range.
pub fn outline_in_range(outline: Outline) -> bool
    requires { (outline.count ≤ slot_count) × (outline.depth ≤ slot_count) }
    ensures { (s : State) → Outlines outline s → result ≡ (every (is_taken s) (stack_of s) && (not (is_standing s.job) || job_in_range s)) }
{
    if !stack_in_range(outline) {
        return false;
    }
    if outline.action == 0 {
        return true;
    }
    job_in_range(outline)
}

// Whether every number of the state lies in its range.
pub fn in_range(state: State) -> bool
    ensures { result ≡ in_range state }
{
    let config = state.config;
    if !config.is_valid() {
        return false;
    }
    if Config::SLOTS < state.count {
        return false;
    }
    if !state.payloads[..state.count]
        .iter()
        .all(|payload| payload_in_range(config, *payload))
    {
        return false;
    }
    if state.count < state.depth {
        return false;
    }
    outline_in_range(outline::outline_of(state))
}
