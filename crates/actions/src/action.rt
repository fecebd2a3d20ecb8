// An action on a payload.
ghost use Rattle.std.specs.Prelude.{◌≡◌};
ghost use Rattle.actions.specs.Actions.{lent, request, job_for, acted, action_of};

use super::{rules, unload};
use memory::config::Config;
use records::refusal::Reason;
use state::change;
use state::state::{Called, Job, State};

// The job that begins: no CPU is held, and no step is done.
fn job_for(command: u32, slot: u32, time: u32) -> Job
    ensures { result ≡ job_for command slot time }
{
    let mut given = time;
    if time == 0 {
        given = 30;
    }
    Job {
        action: command,
        slot,
        held: [false; Config::CPUS_MAX],
        time: given,
        steps: 0,
    }
}

// Unload is done at once; revert, apply and replace become the job. A refusal for the payload's status or for the stack sets its last result.
pub fn action(
    state: State,
    arena: &mut [u8],
    undo: &mut [u8],
    ids: &mut [u8],
    build_id: &[u8],
    name: &[u8],
    command: u32,
    time: u32,
) -> Called
    ensures { acted result (lent arena.new undo.new ids.new)
        ≡ action_of state build_id.now (lent arena.old undo.old ids.old)
        (request name.now command time) }
{
    if !rules::sizes_ok(state, arena.len(), undo.len(), ids.len(), build_id.len()) {
        return Called::refused(state, Reason::Invalid);
    }
    let i = match rules::find_target(state, name, command) {
        Ok(i) => i,
        Err(r) => {
            return Called {
                verdict: Err(r),
                state,
            };
        }
    };
    let payload = state.payloads[i];
    let verdict = rules::check_conditions(state, build_id, ids, command, payload);
    if let Err(r) = verdict {
        let reason = r.reason;
        let told = change::set_result(state, i, reason.number() as u32);
        return Called {
            verdict: Err(r),
            state: told,
        };
    }
    if command == Job::UNLOAD {
        unload::clear(arena, undo, ids, payload.slot as usize);
        let rest = unload::unloaded(state, i);
        return Called {
            verdict: Ok(()),
            state: rest,
        };
    }
    let mut next = change::set_result(state, i, 11);
    next.job = job_for(command, payload.slot, time);
    Called {
        verdict: Ok(()),
        state: next,
    }
}
