// How many edits a job takes off and lays.
ghost use Rattle.std.specs.Prelude.{◌≡◌, ◌≤◌, ◌<◌, ◌^◌, length, reverse};
ghost use Rattle.memory.specs.Memory.{slot_count};
ghost use Rattle.state.specs.State.{stack_of};
ghost use Rattle.state.specs.Steps.{removals_in, removing, laying, step_count};
ghost use Rattle.outlines.specs.Outline.{Outlines};

use super::outline;
use super::outline::Outline;
use state::state::{Job, State};

// The edits of all applied payloads.
fn applied_edits(outline: Outline) -> u64
    requires { (outline.count ≤ slot_count) × (outline.depth ≤ slot_count) }
    ensures { ((s : State) → Outlines outline s → result ≡ length (removals_in s (reverse (stack_of s)))) × (result < 2 ^ 36) }
{
    let mut total = 0;
    for i in 0..outline.depth {
        total += outline::edits_in(outline, outline.stack[i]) as u64;
    }
    total
}

// How many edits the job takes off.
pub fn removed_edits(outline: Outline) -> u64
    requires { (outline.count ≤ slot_count) × (outline.depth ≤ slot_count) }
    ensures { ((s : State) → Outlines outline s → result ≡ length (removing s)) × (result < 2 ^ 36) }
{
    if outline.action == Job::REVERT {
        return outline::edits_in(outline, outline.slot) as u64;
    }
    if outline.action == Job::REPLACE {
        return applied_edits(outline);
    }
    0
}

// How many edits it lays.
fn laid_edits(outline: Outline) -> u64
    requires { outline.count ≤ slot_count }
    ensures { ((s : State) → Outlines outline s → result ≡ length (laying s)) × (result < 2 ^ 32) }
{
    if outline.action != Job::APPLY {
        if outline.action != Job::REPLACE {
            return 0;
        }
    }
    outline::edits_in(outline, outline.slot) as u64
}

// Both.
pub fn all_steps(outline: Outline) -> u64
    requires { (outline.count ≤ slot_count) × (outline.depth ≤ slot_count) }
    ensures { (s : State) → Outlines outline s → result ≡ step_count s }
{
    removed_edits(outline) + laid_edits(outline)
}
