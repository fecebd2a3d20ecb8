// One work step.
ghost use Rattle.std.specs.Prelude.{◌≡◌};
ghost use Rattle.work.specs.Work.{lent, work_sizes_ok, worked_with, work_of};

use super::edit;
use memory::config::Config;
use records::refusal::Reason;
use state::state::{Called, State};
use steps::{end, step};

fn sizes_ok(state: State, text: usize, undo: usize) -> bool
    ensures { result ≡ work_sizes_ok state text undo }
{
    if !ranges::ranges::in_range(state) {
        return false;
    }
    let config = state.config;
    if text as u64 != config.text_length {
        return false;
    }
    undo == Config::UNDO_SIZE
}

// The job's next edit is made; its last one ends the job.
pub fn work(state: State, text: &mut [u8], undo: &mut [u8]) -> Called
    ensures { worked_with result (lent text.new undo.new)
        ≡ work_of state (lent text.old undo.old) }
{
    if !sizes_ok(state, text.len(), undo.len()) {
        return Called::refused(state, Reason::Invalid);
    }
    let job = state.job;
    if job.action == 0 {
        return Called::refused(state, Reason::Invalid);
    }
    if !rendezvous::is_complete(state) {
        return Called::refused(state, Reason::Busy);
    }
    let config = state.config;
    let processor = config.processor;
    let step = step::step_now(state);
    edit::make(text, undo, processor, step);
    let next = end::next_state(state);
    Called {
        verdict: Ok(()),
        state: next,
    }
}
