// An action on a payload.
ghost use Rattle.std.specs.Prelude.{◌≡◌};
ghost use Rattle.actions.specs.Actions.{lent, request, action_of};
ghost use Rattle.state_bytes.specs.Stored.{state_in};
ghost use Rattle.action_calls.specs.Changes.{action_told};
ghost use Rattle.calls.specs.Told.{told, RecordsKept};

use records::refusal::{self, Place, Reason, Refusal};
use state_bytes::buffer;
use state_writes::whole;

// Unload is done at once; revert, apply and replace become the job. A refusal for the payload's status or for the stack sets its last result.
pub fn action(
    records: &mut [u8],
    arena: &mut [u8],
    undo: &mut [u8],
    ids: &mut [u8],
    build_id: &[u8],
    name: &[u8],
    command: u32,
    time: u32,
) -> u64
    ensures ids_after { told result records.new (lent arena.new undo.new ids.new)
        ≡ action_told records.old build_id.now
        (lent arena.old undo.old ids.old) (request name.now command time) }
    ensures records_kept { RecordsKept records.old
        (action_of (state_in records.old) build_id.now
        (lent arena.old undo.old ids.old) (request name.now command time)).state
        records.new }
{
    if !buffer::is_state(records) {
        return Refusal::new(Reason::Invalid, Place::Nowhere).code();
    }
    let called = actions::action::action(
        buffer::load(records),
        arena,
        undo,
        ids,
        build_id,
        name,
        command,
        time,
    );
    let next = called.state;
    whole::store(records, next);
    let verdict = called.verdict;
    refusal::code(verdict)
}
