// Parts of the state in the records buffer, read without the rest.
ghost use Rattle.std.specs.Prelude.{◌≡◌, ◌<◌, length};
ghost use Rattle.memory.specs.Memory.{slot_count};
ghost use Rattle.state.specs.Find.{payload_at};
ghost use Rattle.state_bytes.specs.Layout.{records_size};
ghost use Rattle.state_bytes.specs.Stored.{state_in};

use super::{head, layout, numbers, payloads};
use memory::config::Config;
use records::payload::Payload;
use state::state::Job;

// Start-up's numbers.
pub fn config(b: &[u8]) -> Config
    requires { length b.now ≡ records_size }
    ensures { result ≡ (state_in b.now).config }
{
    head::load_config(b)
}

// How many payloads are loaded, and how many are applied.
pub fn count(b: &[u8]) -> usize
    requires { length b.now ≡ records_size }
    ensures { result ≡ (state_in b.now).count }
{
    numbers::load8(b, layout::COUNT_AT) as usize
}

pub fn depth(b: &[u8]) -> usize
    requires { length b.now ≡ records_size }
    ensures { result ≡ (state_in b.now).depth }
{
    numbers::load8(b, layout::COUNT_AT + 8) as usize
}

// The version of the list.
pub fn version(b: &[u8]) -> u32
    requires { length b.now ≡ records_size }
    ensures { result ≡ (state_in b.now).version }
{
    numbers::load4(b, layout::COUNT_AT + 16)
}

pub fn stack(b: &[u8]) -> [u32; Config::SLOTS]
    requires { length b.now ≡ records_size }
    ensures { result ≡ (state_in b.now).stack }
{
    head::load_stack(b)
}

pub fn job(b: &[u8]) -> Job
    requires { length b.now ≡ records_size }
    ensures { result ≡ (state_in b.now).job }
{
    head::load_job(b)
}

// The payload at place `i` of the list; its slot alone, and how many edits it has.
pub fn payload(b: &[u8], i: usize) -> Payload
    requires { (length b.now ≡ records_size) × (i < slot_count) }
    ensures { result ≡ payload_at (state_in b.now) i }
{
    payloads::load_payload(b, layout::PAYLOADS_AT + layout::PAYLOAD_SIZE * i)
}

pub fn slot(b: &[u8], i: usize) -> u32
    requires { (length b.now ≡ records_size) × (i < slot_count) }
    ensures { result ≡ (payload_at (state_in b.now) i).slot }
{
    let at = layout::PAYLOADS_AT + layout::PAYLOAD_SIZE * i;
    numbers::load4(b, at + (Payload::NAME_MAX + 4))
}

pub fn edit_count(b: &[u8], i: usize) -> u32
    requires { (length b.now ≡ records_size) × (i < slot_count) }
    ensures { result ≡ (payload_at (state_in b.now) i).edit_count }
{
    let at = layout::PAYLOADS_AT + layout::PAYLOAD_SIZE * i;
    numbers::load4(b, at + layout::EDIT_COUNT_AT)
}
