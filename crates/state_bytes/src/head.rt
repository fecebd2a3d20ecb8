// All of the state but its payloads, read.
ghost use Rattle.std.specs.Prelude.{◌≡◌, length};
ghost use Rattle.state_bytes.specs.Flags.{flags_ok};
ghost use Rattle.state_bytes.specs.Layout.{job_place, held_place, stack_place, records_size};
ghost use Rattle.state_bytes.specs.Stored.{config_at, held_at, job_at, stack_at};

use super::{layout, numbers};
use machine::processor::Processor;
use memory::config::Config;
use state::state::Job;

pub(crate) fn load_config(b: &[u8]) -> Config
    requires { length b.now ≡ records_size }
    ensures { result ≡ config_at b.now 0 }
{
    Config {
        processor: Processor::X86_64,
        text: numbers::load8(b, 0),
        text_length: numbers::load8(b, 8),
        arena: numbers::load8(b, 16),
        id_length: numbers::load4(b, 24),
        cpus: numbers::load4(b, 28),
    }
}

// A byte for each CPU.
fn load_held(b: &[u8]) -> [bool; Config::CPUS_MAX]
    requires { length b.now ≡ records_size }
    ensures { result ≡ held_at b.now held_place }
{
    let mut held = [false; Config::CPUS_MAX];
    for (i, flag) in held.iter_mut().enumerate() {
        *flag = b[layout::HELD_AT + i] == 1;
    }
    held
}

// Whether every CPU's byte is 0 or 1.
pub(crate) fn flags_ok(b: &[u8]) -> bool
    requires { length b.now ≡ records_size }
    ensures { result ≡ flags_ok b.now }
{
    let end = layout::HELD_AT + Config::CPUS_MAX;
    b[layout::HELD_AT..end].iter().all(|flag| *flag <= 1)
}

pub(crate) fn load_job(b: &[u8]) -> Job
    requires { length b.now ≡ records_size }
    ensures { result ≡ job_at b.now job_place }
{
    let held = load_held(b);
    Job {
        action: numbers::load4(b, layout::JOB_AT),
        slot: numbers::load4(b, layout::JOB_AT + 4),
        held,
        time: numbers::load4(b, layout::JOB_AT + 8),
        steps: numbers::load4(b, layout::JOB_AT + 12),
    }
}

pub(crate) fn load_stack(b: &[u8]) -> [u32; Config::SLOTS]
    requires { length b.now ≡ records_size }
    ensures { result ≡ stack_at b.now stack_place }
{
    let mut stack = [0u32; Config::SLOTS];
    for (i, slot) in stack.iter_mut().enumerate() {
        *slot = numbers::load4(b, layout::STACK_AT + 4 * i);
    }
    stack
}
