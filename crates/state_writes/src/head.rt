// All of the state but its payloads, written.
ghost use Rattle.std.specs.Prelude.{◌≡◌, map, ◌<◌, ◌^◌, length};
ghost use Rattle.words.specs.Number.{le_bytes};
ghost use Rattle.words.specs.Splice.{splice};
ghost use Rattle.memory.specs.Config.{cpus_max};
ghost use Rattle.memory.specs.Memory.{slot_count};
ghost use Rattle.state_bytes.specs.Fields.{chained};
ghost use Rattle.state_bytes.specs.Layout.{count_place, job_place, held_place, stack_place, records_size};
ghost use Rattle.state_bytes.specs.Stored.{config_bytes, config_at, flag_byte, job_bytes, job_at, count_bytes, stack_at};

use super::numbers;
use memory::config::Config;
use state::state::{Job, State};
use state_bytes::layout;

pub(crate) fn store_config(b: &mut [u8], config: Config)
    requires { length b.old ≡ records_size }
    ensures b_after { b.new ≡ splice b.old 0 (config_bytes config) }
    ensures config_value { config_at (config_bytes config) 0 ≡ config }
{
    numbers::store8(b, 0, config.text);
    numbers::store8(b, 8, config.text_length);
    numbers::store8(b, 16, config.arena);
    numbers::store4(b, 24, config.id_length);
    numbers::store4(b, 28, config.cpus);
}

// The counts and the version.
pub(crate) fn store_counts(b: &mut [u8], state: State)
    requires { length b.old ≡ records_size }
    ensures b_after { b.new ≡ splice b.old count_place (count_bytes state) }
    ensures count_bound { (state.count < 256 ^ 8) × (state.depth < 256 ^ 8) × (state.version < 256 ^ 4) }
{
    numbers::store8(b, layout::COUNT_AT, state.count as u64);
    numbers::store8(b, layout::COUNT_AT + 8, state.depth as u64);
    numbers::store4(b, layout::COUNT_AT + 16, state.version);
}

// A byte for each CPU.
fn flag_byte(held: bool) -> u8
    ensures { result ≡ flag_byte held }
{
    if held {
        return 1;
    }
    0
}

fn store_held(b: &mut [u8], held: [bool; Config::CPUS_MAX])
    requires { length b.old ≡ records_size }
    ensures b_after { b.new ≡ splice b.old held_place (map flag_byte held) }
    ensures held_len { length held ≡ cpus_max }
{
    for (i, flag) in held.iter().enumerate() {
        b[layout::HELD_AT + i] = flag_byte(*flag);
    }
}

pub(crate) fn store_job(b: &mut [u8], job: Job)
    requires { length b.old ≡ records_size }
    ensures b_after { b.new ≡ splice b.old job_place (job_bytes job) }
    ensures held_len { (length job.held ≡ cpus_max) × (job_at (job_bytes job) 0 ≡ job) }
{
    let held = job.held;
    numbers::store4(b, layout::JOB_AT, job.action);
    numbers::store4(b, layout::JOB_AT + 4, job.slot);
    numbers::store4(b, layout::JOB_AT + 8, job.time);
    numbers::store4(b, layout::JOB_AT + 12, job.steps);
    store_held(b, held);
}

pub(crate) fn store_stack(b: &mut [u8], stack: [u32; Config::SLOTS])
    requires { length b.old ≡ records_size }
    ensures b_after { b.new ≡ splice b.old stack_place (chained (map (le_bytes 4) stack)) }
    ensures stack_len { (length stack ≡ slot_count) × (stack_at (chained (map (le_bytes 4) stack)) 0 ≡ stack) }
{
    for (i, slot) in stack.iter().enumerate() {
        numbers::store4(b, layout::STACK_AT + 4 * i, *slot);
    }
}
