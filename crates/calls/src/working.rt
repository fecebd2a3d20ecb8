// A work step.
ghost use Rattle.std.specs.Prelude.{◌≡◌};
ghost use Rattle.work.specs.Work.{lent, work_of};
ghost use Rattle.state_bytes.specs.Stored.{state_in};
ghost use Rattle.calls.specs.Changes.{work_told};
ghost use Rattle.calls.specs.Told.{told, RecordsKept};

use records::refusal::{self, Place, Reason, Refusal};
use state_bytes::buffer;

// The job's next edit is made; its last one ends the job.
pub fn work(records: &mut [u8], text: &mut [u8], undo: &mut [u8]) -> u64
    ensures undo_after { told result records.new (lent text.new undo.new)
        ≡ work_told records.old (lent text.old undo.old) }
    ensures records_kept { RecordsKept records.old
        (work_of (state_in records.old) (lent text.old undo.old)).state records.new }
{
    if !buffer::is_state(records) {
        return Refusal::new(Reason::Invalid, Place::Nowhere).code();
    }
    let verdict = work_in_place::working::work(records, text, undo);
    refusal::code(verdict)
}
