// One work step.
ghost use Rattle.std.specs.Prelude.{◌≡◌, true, length};
ghost use Rattle.ranges.specs.Ranges.{in_range};
ghost use Rattle.state.specs.State.{is_standing};
ghost use Rattle.state_bytes.specs.Layout.{records_size};
ghost use Rattle.state_bytes.specs.Stored.{state_in, is_state, HoldsState};
ghost use Rattle.steps.specs.Next.{step_now};
ghost use Rattle.work.specs.Work.{lent, work_sizes_ok, work_of};

use super::end;
use in_place::range;
use memory::config::Config;
use records::refusal::{self, Place, Reason, Refusal};
use state::steps::Step;
use state_bytes::parts;
use steps::step;
use work::edit;

fn sizes_ok(b: &[u8], text: usize, undo: usize) -> bool
    requires { length b.now ≡ records_size }
    ensures { result ≡ work_sizes_ok (state_in b.now) text undo }
{
    if !range::in_range(b) {
        return false;
    }
    let config = parts::config(b);
    if text as u64 != config.text_length {
        return false;
    }
    undo == Config::UNDO_SIZE
}

// The edit that comes next.
fn step_now(b: &[u8]) -> Step
    requires { (length b.now ≡ records_size) × (in_range (state_in b.now) ≡ true) × (is_standing (state_in b.now).job ≡ true) }
    ensures { result ≡ step_now (state_in b.now) }
{
    let choice = step::choose(range::outline(b));
    let payload = parts::payload(b, choice.place);
    step::step_for(choice.lays, payload, choice.number)
}

// The job's next edit is made; its last one ends the job.
pub fn work(b: &mut [u8], text: &mut [u8], undo: &mut [u8]) -> Result<(), Refusal>
    requires { is_state b.old ≡ true }
    ensures { (result ≡ (work_of (state_in b.old) (lent text.old undo.old)).answer)
        × HoldsState (work_of (state_in b.old) (lent text.old undo.old)).state b.new
        × (lent text.new undo.new ≡ (work_of (state_in b.old) (lent text.old undo.old)).after) }
{
    if !sizes_ok(b, text.len(), undo.len()) {
        return refusal::refused(Reason::Invalid, Place::Nowhere);
    }
    let job = parts::job(b);
    if job.action == 0 {
        return refusal::refused(Reason::Invalid, Place::Nowhere);
    }
    let config = parts::config(b);
    if !rendezvous::all_held(job, config.cpus as usize) {
        return refusal::refused(Reason::Busy, Place::Nowhere);
    }
    let processor = config.processor;
    let step = step_now(b);
    edit::make(text, undo, processor, step);
    end::next(b);
    Ok(())
}
