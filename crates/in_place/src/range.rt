// The outline of the state that the bytes hold, and whether its numbers lie in their ranges.
ghost use Rattle.std.specs.Prelude.{◌≡◌, ℕ, ◌≤◌, ◌<◌, length, Some};
ghost use Rattle.memory.specs.Memory.{slot_count};
ghost use Rattle.state.specs.Find.{with_slot};
ghost use Rattle.outlines.specs.Outline.{Outlines};
ghost use Rattle.ranges.specs.Ranges.{in_range};
ghost use Rattle.state_bytes.specs.Layout.{records_size};
ghost use Rattle.state_bytes.specs.Stored.{state_in};

use memory::config::Config;
use outlines::outline;
use outlines::outline::Outline;
use state_bytes::parts;

pub fn outline(b: &[u8]) -> Outline
    requires { (length b.now ≡ records_size) × ((state_in b.now).count ≤ slot_count) }
    ensures { Outlines result (state_in b.now) }
{
    let count = parts::count(b);
    let depth = parts::depth(b);
    let stack = parts::stack(b);
    let job = parts::job(b);
    let mut slots = [0u32; Config::SLOTS];
    let mut edits = [0u32; Config::SLOTS];
    for i in 0..count {
        slots[i] = parts::slot(b, i);
        edits[i] = parts::edit_count(b, i);
    }
    Outline {
        count,
        slots,
        edits,
        depth,
        stack,
        action: job.action,
        slot: job.slot,
        time: job.time,
        steps: job.steps,
    }
}

// The place in the list of the payload in this slot.
pub fn with_slot(b: &[u8], slot: u32) -> Option<usize>
    requires { (length b.now ≡ records_size) × ((state_in b.now).count ≤ slot_count) }
    ensures { (result ≡ with_slot (state_in b.now) slot) × ((i : ℕ) → result ≡ Some i → i < slot_count) }
{
    outline::with_slot(outline(b), slot)
}

// Whether every number of the state lies in its range. One payload at a time is loaded.
pub fn in_range(b: &[u8]) -> bool
    requires { length b.now ≡ records_size }
    ensures { result ≡ in_range (state_in b.now) }
{
    let config = parts::config(b);
    if !config.is_valid() {
        return false;
    }
    let count = parts::count(b);
    if Config::SLOTS < count {
        return false;
    }
    for i in 0..count {
        if !ranges::ranges::payload_in_range(config, parts::payload(b, i)) {
            return false;
        }
    }
    if count < parts::depth(b) {
        return false;
    }
    ranges::ranges::outline_in_range(outline(b))
}
