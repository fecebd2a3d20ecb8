// The outline of a state: all that its stack and its job are checked by. A state goes by value and has some 8 KiB; its outline has 128 bytes.
ghost use Rattle.std.specs.Prelude.{◌≡◌, ℕ, ◌≤◌, ◌<◌, Some};
ghost use Rattle.memory.specs.Memory.{slot_count};
ghost use Rattle.state.specs.Find.{with_slot, lowest_free, free_slot, payload_in};
ghost use Rattle.outlines.specs.Outline.{Outlines};

use memory::config::Config;
use state::state::State;

// `slots` and `edits` are of the loaded payloads: where each is, and how many edits it has. From `action` on it is the job.
#[derive(Clone, Copy)]
pub struct Outline {
    pub count: usize,
    pub slots: [u32; Config::SLOTS],
    pub edits: [u32; Config::SLOTS],
    pub depth: usize,
    pub stack: [u32; Config::SLOTS],
    pub action: u32,
    pub slot: u32,
    pub time: u32,
    pub steps: u32,
}

pub fn outline_of(state: State) -> Outline
    requires { state.count ≤ slot_count }
    ensures { Outlines result state }
{
    let mut slots = [0u32; Config::SLOTS];
    let mut edits = [0u32; Config::SLOTS];
    for (i, payload) in state.payloads[..state.count].iter().enumerate() {
        slots[i] = payload.slot;
        edits[i] = payload.edit_count;
    }
    let job = state.job;
    Outline {
        count: state.count,
        slots,
        edits,
        depth: state.depth,
        stack: state.stack,
        action: job.action,
        slot: job.slot,
        time: job.time,
        steps: job.steps,
    }
}

// The place in the list of the payload in this slot.
pub fn with_slot(outline: Outline, slot: u32) -> Option<usize>
    requires { outline.count ≤ slot_count }
    ensures { ((s : State) → Outlines outline s → result ≡ with_slot s slot) × ((i : ℕ) → result ≡ Some i → i < outline.count) }
{
    for (i, used) in outline.slots[..outline.count].iter().enumerate() {
        if *used == slot {
            return Some(i);
        }
    }
    None
}

// How many edits the payload in this slot has; none where there is no payload.
pub fn edits_in(outline: Outline, slot: u32) -> u32
    requires { outline.count ≤ slot_count }
    ensures { (s : State) → Outlines outline s → result ≡ (payload_in s slot).edit_count }
{
    let Some(i) = with_slot(outline, slot) else {
        return 0;
    };
    outline.edits[i]
}

// The lowest slot that no payload is in.
fn lowest_free(outline: Outline) -> Option<usize>
    requires { outline.count ≤ slot_count }
    ensures { (s : State) → Outlines outline s → result ≡ lowest_free s }
{
    for slot in 0..Config::SLOTS {
        let Some(_) = with_slot(outline, slot as u32) else {
            return Some(slot);
        };
    }
    None
}

// The slot that an upload takes.
pub fn free_slot(outline: Outline) -> Option<usize>
    ensures { (s : State) → Outlines outline s → result ≡ free_slot s }
{
    if Config::SLOTS <= outline.count {
        return None;
    }
    lowest_free(outline)
}
