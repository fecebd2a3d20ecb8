// An upload.
ghost use Rattle.upload.specs.Upload.{lent, request};
ghost use Rattle.upload_call.specs.Changes.{Uploads};
ghost use Rattle.calls.specs.Told.{told};

use records::refusal::{Place, Reason, Refusal};
use state_bytes::{buffer, parts};
use upload_in_place::uploading;

// The payload `file` under `name`, its undefined symbols looked up in `list`. Accepted, the records, the lowest free slot and its id store entry are
// written; refused, nothing is.
pub fn upload(
    records: &mut [u8],
    arena: &mut [u8],
    ids: &mut [u8],
    name: &[u8],
    list: &[u8],
    file: &[u8],
) -> u64
    ensures { Uploads records.old (lent arena.old ids.old)
        (request name.now list.now file.now)
        (told result records.new (lent arena.new ids.new)) }
{
    if !buffer::is_state(records) {
        return Refusal::new(Reason::Invalid, Place::Nowhere).code();
    }
    let slot = match uploading::room_for(records, arena.len(), ids.len(), name, list) {
        Ok(slot) => slot,
        Err(r) => return r.code(),
    };
    let config = parts::config(records);
    let prepared = match upload::upload::prepare_in(config, arena, slot, list, file) {
        Ok(prepared) => prepared,
        Err(r) => return r.code(),
    };
    uploading::enter(records, ids, name, slot, prepared);
    0
}
