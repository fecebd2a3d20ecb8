// The edit that the next work step makes.
ghost use Rattle.std.specs.Prelude.{◌≡◌, true, ◌≤◌, ◌<◌, length, reverse};
ghost use Rattle.records.specs.Limits.{records_max};
ghost use Rattle.memory.specs.Memory.{slot_count};
ghost use Rattle.state.specs.Find.{payload_in};
ghost use Rattle.state.specs.State.{is_standing, stack_of};
ghost use Rattle.state.specs.Steps.{step_for, removals_in, removing};
ghost use Rattle.outlines.specs.Outline.{Outlines};
ghost use Rattle.ranges.specs.Ranges.{in_range};
ghost use Rattle.steps.specs.Next.{step_now, Chosen};

use outlines::outline::Outline;
use outlines::{counts, outline};
use records::payload::Payload;
use state::state::{Job, State};
use state::steps::Step;

// The record whose edit comes next: laid, or taken off; the place in the list of its payload, and its number.
#[derive(Clone, Copy)]
pub struct Choice {
    pub lays: bool,
    pub place: usize,
    pub number: usize,
}

// Record `number` of the payload in this slot.
fn choice_in(outline: Outline, lays: bool, slot: u32, number: usize) -> Choice
    requires { outline.count ≤ slot_count }
    ensures { (s : State) → Outlines outline s → number < (payload_in s slot).edit_count
        → step_for lays (payload_in s slot) number ≡ step_now s → Chosen result s }
{
    let Some(place) = outline::with_slot(outline, slot) else {
        return Choice {
            lays,
            place: 0,
            number,
        };
    };
    Choice {
        lays,
        place,
        number,
    }
}

// The next removal of those of all applied payloads: the newest payload first, and its last record first.
fn applied_choice(outline: Outline) -> Choice
    requires { (outline.count ≤ slot_count) × (outline.depth ≤ slot_count) }
    ensures { (s : State) → Outlines outline s → removing s ≡ removals_in s (reverse (stack_of s))
        → s.job.steps < length (removing s) → Chosen result s }
{
    let mut rest = outline.steps;
    for i in (0..outline.depth).rev() {
        let slot = outline.stack[i];
        let count = outline::edits_in(outline, slot);
        if rest < count {
            return choice_in(outline, false, slot, (count - 1 - rest) as usize);
        }
        rest -= count;
    }
    Choice {
        lays: false,
        place: 0,
        number: 0,
    }
}

// The record whose edit comes next, in every state with this outline in which a job stands.
pub fn choose(outline: Outline) -> Choice
    requires { (outline.count ≤ slot_count) × (outline.depth ≤ slot_count) }
    ensures { (s : State) → Outlines outline s → in_range s ≡ true → is_standing s.job ≡ true → Chosen result s }
{
    let k = outline.steps as u64;
    let removals = counts::removed_edits(outline);
    if removals <= k {
        return choice_in(outline, true, outline.slot, (k - removals) as usize);
    }
    if outline.action == Job::REVERT {
        return choice_in(outline, false, outline.slot, (removals - 1 - k) as usize);
    }
    applied_choice(outline)
}

// The step of record `number` of a payload.
pub fn step_for(lays: bool, payload: Payload, number: usize) -> Step
    requires { number < records_max }
    ensures { result ≡ step_for lays payload number }
{
    let edit = payload.edits[number];
    Step {
        lays,
        slot: payload.slot,
        number: number as u32,
        edit,
    }
}

// The edit that comes next.
pub fn step_now(state: State) -> Step
    requires { (in_range state ≡ true) × (is_standing state.job ≡ true) }
    ensures { result ≡ step_now state }
{
    let choice = choose(outline::outline_of(state));
    let place = choice.place;
    let payload = state.payloads[place];
    step_for(choice.lays, payload, choice.number)
}
