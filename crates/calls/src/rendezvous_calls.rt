// A CPU's report, and a tick.
ghost use Rattle.std.specs.Prelude.{◌≡◌};
ghost use Rattle.rendezvous.specs.Rendezvous.{report_of, tick_of};
ghost use Rattle.state_bytes.specs.Stored.{state_in};
ghost use Rattle.calls.specs.Changes.{report_told, tick_told};
ghost use Rattle.calls.specs.Told.{told, RecordsKept};

use records::refusal::{self, Place, Reason, Refusal};
use report_in_place::reporting;
use state_bytes::buffer;

// The CPU `cpu` is held.
pub fn report(records: &mut [u8], cpu: u32) -> u64
    ensures tt_after { told result records.new tt ≡ report_told records.old cpu }
    ensures records_kept { RecordsKept records.old (report_of (state_in records.old) cpu).state records.new }
{
    if !buffer::is_state(records) {
        return Refusal::new(Reason::Invalid, Place::Nowhere).code();
    }
    let verdict = reporting::report(records, cpu);
    refusal::code(verdict)
}

// One tick of the time that a job has to gather the CPUs.
pub fn tick(records: &mut [u8]) -> u64
    ensures tt_after { told result records.new tt ≡ tick_told records.old }
    ensures records_kept { RecordsKept records.old (tick_of (state_in records.old)).state records.new }
{
    if !buffer::is_state(records) {
        return Refusal::new(Reason::Invalid, Place::Nowhere).code();
    }
    let verdict = reporting::tick(records);
    refusal::code(verdict)
}
