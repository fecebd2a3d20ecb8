// The rendezvous of a job: CPUs report, ticks pass.
#![tactic(auto)]

ghost use Rattle.std.specs.Prelude.{◌≡◌, true, ◌≤◌, take};
ghost use Rattle.words.specs.Find.{every};
ghost use Rattle.memory.specs.Config.{cpus_max};
ghost use Rattle.ranges.specs.Ranges.{in_range};
ghost use Rattle.rendezvous.specs.Rendezvous.{is_complete, report_of, timed_out, tick_of};

use records::refusal::Reason;
use state::change;
use state::state::{Called, Job, State};

// Whether each of the first `count` CPUs is held.
pub fn all_held(job: Job, count: usize) -> bool
    requires { count ≤ cpus_max }
    ensures { result ≡ every (λ held. held) (take count job.held) }
{
    for i in 0..count {
        if !job.held[i] {
            return false;
        }
    }
    true
}

// Whether every CPU is held.
pub fn is_complete(state: State) -> bool
    requires { in_range state ≡ true }
    ensures { result ≡ is_complete state }
{
    let config = state.config;
    let job = state.job;
    all_held(job, config.cpus as usize)
}

// The CPU `cpu` is held.
pub fn report(state: State, cpu: u32) -> Called
    ensures { result ≡ report_of state cpu }
{
    if !ranges::ranges::in_range(state) {
        return Called::refused(state, Reason::Invalid);
    }
    let mut job = state.job;
    if job.action == 0 {
        return Called::refused(state, Reason::Invalid);
    }
    let config = state.config;
    if config.cpus <= cpu {
        return Called::refused(state, Reason::Invalid);
    }
    job.held[cpu as usize] = true;
    let mut next = state;
    next.job = job;
    Called {
        verdict: Ok(()),
        state: next,
    }
}

// The job of a state ended for want of time.
fn time_out(state: State) -> State
    requires { in_range state ≡ true }
    ensures { result ≡ timed_out state }
{
    let job = state.job;
    let mut next = change::set_result_in(state, job.slot, 16);
    next.job = Job::none();
    next
}

// One tick of the time that a job has to gather the CPUs.
pub fn tick(state: State) -> Called
    ensures { result ≡ tick_of state }
{
    if !ranges::ranges::in_range(state) {
        return Called::refused(state, Reason::Invalid);
    }
    let mut job = state.job;
    if job.action == 0 {
        return Called::refused(state, Reason::Invalid);
    }
    if is_complete(state) {
        return Called {
            verdict: Ok(()),
            state,
        };
    }
    if job.time == 1 {
        let ended = time_out(state);
        return Called {
            verdict: Ok(()),
            state: ended,
        };
    }
    job.time -= 1;
    let mut next = state;
    next.job = job;
    Called {
        verdict: Ok(()),
        state: next,
    }
}
