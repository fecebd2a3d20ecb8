// Start-up.
ghost use Rattle.std.specs.Prelude.{◌≡◌};
ghost use Rattle.action_calls.specs.Changes.{memory, start_lent, start_told, StartKept};
ghost use Rattle.calls.specs.Told.{told};

use records::refusal::{Place, Reason, Refusal};
use state_bytes::buffer;
use state_writes::whole;

// Arena and stores are zeroed, and the records are those of a state in which nothing is loaded. Refused, nothing is written.
pub fn start(
    records: &mut [u8],
    text: &[u8],
    text_base: u64,
    arena: &mut [u8],
    arena_base: u64,
    undo: &mut [u8],
    ids: &mut [u8],
    build_id: &[u8],
    cpus: u32,
) -> u64
    ensures ids_after { told result records.new (memory arena.new undo.new ids.new)
        ≡ start_told records.old
        (start_lent text.now text_base arena.old arena_base undo.old ids.old
        build_id.now cpus) }
    ensures start_kept { StartKept result
        (start_lent text.now text_base arena.old arena_base undo.old ids.old
        build_id.now cpus)
        records.new }
{
    if records.len() != buffer::size() {
        return Refusal::new(Reason::Invalid, Place::Nowhere).code();
    }
    let called = startup::start(
        text, text_base, arena, arena_base, undo, ids, build_id, cpus,
    );
    let verdict = called.verdict;
    if let Err(r) = verdict {
        return r.code();
    }
    let next = called.state;
    whole::store(records, next);
    0
}
