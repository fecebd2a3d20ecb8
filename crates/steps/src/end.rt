// The state after a work step: the last one ends the job.
ghost use Rattle.std.specs.Prelude.{◌≡◌, true, cond, ◌≤◌, eqb};
ghost use Rattle.memory.specs.Memory.{slot_count};
ghost use Rattle.ranges.specs.Ranges.{in_range};
ghost use Rattle.state.specs.Change.{changed_in};
ghost use Rattle.state.specs.State.{revert, checked, applied, is_standing};
ghost use Rattle.steps.specs.Next.{all_checked, finished, statuses_set, stack_set, ended, worked};

use outlines::{counts, outline};
use state::state::{Job, State};
use state::{change, find};

// Every payload has status 1.
fn all_checked(state: State) -> State
    requires { state.count ≤ slot_count }
    ensures { result ≡ all_checked state }
{
    let mut next = state;
    for i in 0..state.count {
        next = change::set_status(next, i, State::CHECKED);
    }
    next
}

// The status that this action leaves its payload in.
pub fn status_after(action: u32) -> u32
    ensures { result ≡ cond (eqb action revert) checked applied }
{
    if action == Job::REVERT {
        return State::CHECKED;
    }
    State::APPLIED
}

// The payload in a slot after this action.
fn finish(state: State, slot: u32, action: u32) -> State
    requires { state.count ≤ slot_count }
    ensures { result ≡ changed_in (finished action) state slot }
{
    let Some(i) = find::with_slot(state, slot) else {
        return state;
    };
    let status = status_after(action);
    let next = change::set_result(state, i, 0);
    change::set_status(next, i, status)
}

// The statuses after the job, and the result of its payload.
fn set_statuses(state: State) -> State
    requires { state.count ≤ slot_count }
    ensures { result ≡ statuses_set state }
{
    let job = state.job;
    if job.action == Job::REPLACE {
        let next = all_checked(state);
        return finish(next, job.slot, job.action);
    }
    finish(state, job.slot, job.action)
}

// The stack after the job.
fn set_stack(state: State) -> State
    requires { (in_range state ≡ true) × (is_standing state.job ≡ true) }
    ensures { result ≡ stack_set state }
{
    let job = state.job;
    let depth = state.depth;
    let mut next = state;
    if job.action == Job::REVERT {
        next.depth = depth - 1;
        return next;
    }
    if job.action == Job::APPLY {
        next.stack[depth] = job.slot;
        next.depth = depth + 1;
        return next;
    }
    next.stack[0] = job.slot;
    next.depth = 1;
    next
}

// The state after the job's last step.
fn end_job(state: State) -> State
    requires { (in_range state ≡ true) × (is_standing state.job ≡ true) }
    ensures { result ≡ ended state }
{
    let stacked = set_stack(state);
    let mut next = set_statuses(stacked);
    next.job = Job::none();
    next
}

// The state after one more step.
pub fn next_state(state: State) -> State
    requires { (in_range state ≡ true) × (is_standing state.job ≡ true) }
    ensures { result ≡ worked state }
{
    let mut job = state.job;
    if job.steps as u64 + 1 == counts::all_steps(outline::outline_of(state)) {
        return end_job(state);
    }
    job.steps += 1;
    let mut next = state;
    next.job = job;
    next
}
