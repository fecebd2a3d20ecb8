// A CPU's report, and a tick.
ghost use Rattle.std.specs.Prelude.{◌≡◌, true};
ghost use Rattle.ranges.specs.Ranges.{in_range};
ghost use Rattle.rendezvous.specs.Rendezvous.{report_of, timed_out, tick_of};
ghost use Rattle.state_bytes.specs.Stored.{state_in, is_state, HoldsState};

use super::change;
use in_place::range;
use records::refusal::{self, Place, Reason, Refusal};
use state::state::Job;
use state_bytes::parts;
use state_writes::single;

// The CPU `cpu` is held.
pub fn report(b: &mut [u8], cpu: u32) -> Result<(), Refusal>
    requires { is_state b.old ≡ true }
    ensures { (result ≡ (report_of (state_in b.old) cpu).verdict)
        × HoldsState (report_of (state_in b.old) cpu).state b.new }
{
    if !range::in_range(b) {
        return refusal::refused(Reason::Invalid, Place::Nowhere);
    }
    let mut job = parts::job(b);
    if job.action == 0 {
        return refusal::refused(Reason::Invalid, Place::Nowhere);
    }
    let config = parts::config(b);
    if config.cpus <= cpu {
        return refusal::refused(Reason::Invalid, Place::Nowhere);
    }
    job.held[cpu as usize] = true;
    single::put_job(b, job);
    Ok(())
}

// The job ended for want of time.
fn time_out(b: &mut [u8], slot: u32)
    requires { (is_state b.old ≡ true) × (in_range (state_in b.old) ≡ true) × (slot ≡ (state_in b.old).job.slot) }
    ensures { HoldsState (timed_out (state_in b.old)) b.new }
{
    change::set_result_in(b, slot, 16);
    let none = Job::none();
    single::put_job(b, none);
}

// One tick of the time that a job has to gather the CPUs.
pub fn tick(b: &mut [u8]) -> Result<(), Refusal>
    requires { is_state b.old ≡ true }
    ensures { (result ≡ (tick_of (state_in b.old)).verdict)
        × HoldsState (tick_of (state_in b.old)).state b.new }
{
    if !range::in_range(b) {
        return refusal::refused(Reason::Invalid, Place::Nowhere);
    }
    let mut job = parts::job(b);
    if job.action == 0 {
        return refusal::refused(Reason::Invalid, Place::Nowhere);
    }
    let config = parts::config(b);
    if rendezvous::all_held(job, config.cpus as usize) {
        return Ok(());
    }
    if job.time == 1 {
        time_out(b, job.slot);
        return Ok(());
    }
    job.time -= 1;
    single::put_job(b, job);
    Ok(())
}
