// The state after a work step: the last one ends the job.
ghost use Rattle.std.specs.Prelude.{◌≡◌, true, ◌≤◌};
ghost use Rattle.memory.specs.Memory.{slot_count};
ghost use Rattle.ranges.specs.Ranges.{in_range};
ghost use Rattle.state.specs.Change.{changed_in};
ghost use Rattle.state.specs.State.{is_standing};
ghost use Rattle.state_bytes.specs.Stored.{state_in, is_state, HoldsState};
ghost use Rattle.steps.specs.Next.{taken_down, finished, stack_set, ended, worked};

use super::change;
use in_place::range;
use outlines::counts;
use state::state::{Job, State};
use state_bytes::parts;
use state_writes::single;

// The stack after the job.
fn set_stack(b: &mut [u8])
    requires { (is_state b.old ≡ true) × (in_range (state_in b.old) ≡ true) × (is_standing (state_in b.old).job ≡ true) }
    ensures { HoldsState (stack_set (state_in b.old)) b.new }
{
    let job = parts::job(b);
    let depth = parts::depth(b);
    if job.action == Job::REVERT {
        single::put_depth(b, depth - 1);
        return;
    }
    let mut stack = parts::stack(b);
    if job.action == Job::APPLY {
        stack[depth] = job.slot;
        single::put_stack(b, stack);
        single::put_depth(b, depth + 1);
        return;
    }
    stack[0] = job.slot;
    single::put_stack(b, stack);
    single::put_depth(b, 1);
}

// A replace leaves every payload that it took off with status 1.
fn take_down(b: &mut [u8])
    requires { (is_state b.old ≡ true) × ((state_in b.old).count ≤ slot_count) }
    ensures { HoldsState (taken_down (state_in b.old)) b.new }
{
    let job = parts::job(b);
    if job.action != Job::REPLACE {
        return;
    }
    let count = parts::count(b);
    for i in 0..count {
        change::set_status(b, i, State::CHECKED);
    }
}

// The payload in a slot after this action.
fn finish(b: &mut [u8], slot: u32, action: u32)
    requires { (is_state b.old ≡ true) × ((state_in b.old).count ≤ slot_count) }
    ensures { HoldsState (changed_in (finished action) (state_in b.old) slot) b.new }
{
    let Some(i) = range::with_slot(b, slot) else {
        return;
    };
    let mut payload = parts::payload(b, i);
    payload.result = 0;
    payload.status = steps::end::status_after(action);
    single::put_payload(b, i, payload);
}

// The state after the job's last step.
fn end_job(b: &mut [u8])
    requires { (is_state b.old ≡ true) × (in_range (state_in b.old) ≡ true) × (is_standing (state_in b.old).job ≡ true) }
    ensures { HoldsState (ended (state_in b.old)) b.new }
{
    let job = parts::job(b);
    set_stack(b);
    take_down(b);
    finish(b, job.slot, job.action);
    let none = Job::none();
    single::put_job(b, none);
}

// The state after one more step.
pub(crate) fn next(b: &mut [u8])
    requires { (is_state b.old ≡ true) × (in_range (state_in b.old) ≡ true) × (is_standing (state_in b.old).job ≡ true) }
    ensures { HoldsState (worked (state_in b.old)) b.new }
{
    let mut job = parts::job(b);
    if job.steps as u64 + 1 == counts::all_steps(range::outline(b)) {
        end_job(b);
        return;
    }
    job.steps += 1;
    single::put_job(b, job);
}
