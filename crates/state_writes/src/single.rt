// One part of the state in the records buffer replaced, without the rest.
ghost use Rattle.std.specs.Prelude.{◌≡◌, true, ◌<◌, set};
ghost use Rattle.memory.specs.Memory.{slot_count};
ghost use Rattle.state.specs.State.{with_payloads, with_count, with_version, with_stack, with_job};
ghost use Rattle.state_bytes.specs.Stored.{state_in, is_state, HoldsState};

use super::{head, numbers, payloads};
use memory::config::Config;
use records::payload::Payload;
use state::state::Job;
use state_bytes::layout;

// The number of loaded payloads replaced, the version, the number of applied payloads, their slots, the job, and the payload at place `i` of the list.
pub fn put_count(b: &mut [u8], count: usize)
    requires { is_state b.old ≡ true }
    ensures { HoldsState (with_count count (state_in b.old)) b.new }
{
    numbers::store8(b, layout::COUNT_AT, count as u64);
}

pub fn put_version(b: &mut [u8], version: u32)
    requires { is_state b.old ≡ true }
    ensures { HoldsState (with_version version (state_in b.old)) b.new }
{
    numbers::store4(b, layout::COUNT_AT + 16, version);
}

pub fn put_depth(b: &mut [u8], depth: usize)
    requires { is_state b.old ≡ true }
    ensures { HoldsState (with_stack depth (state_in b.old).stack (state_in b.old)) b.new }
{
    numbers::store8(b, layout::COUNT_AT + 8, depth as u64);
}

pub fn put_stack(b: &mut [u8], stack: [u32; Config::SLOTS])
    requires { is_state b.old ≡ true }
    ensures { HoldsState (with_stack (state_in b.old).depth stack (state_in b.old)) b.new }
{
    head::store_stack(b, stack);
}

pub fn put_job(b: &mut [u8], job: Job)
    requires { is_state b.old ≡ true }
    ensures { HoldsState (with_job job (state_in b.old)) b.new }
{
    head::store_job(b, job);
}

pub fn put_payload(b: &mut [u8], i: usize, payload: Payload)
    requires { (is_state b.old ≡ true) × (i < slot_count) }
    ensures { HoldsState (with_payloads (set (state_in b.old).payloads i payload) (state_in b.old)) b.new }
{
    payloads::store_payload(b, layout::PAYLOADS_AT + layout::PAYLOAD_SIZE * i, payload);
}
