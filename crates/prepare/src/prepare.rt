// A payload prepared in one call.
ghost use Rattle.std.specs.Prelude.{◌≡◌};
ghost use Rattle.acceptance.specs.Stages.{setting};
ghost use Rattle.prepare.specs.Prepare.{outcome, Prepares};

use super::build;
use machine::host::Host;
use records::payload::{BuildId, Edit, Payload};
use records::refusal::{self, Place, Reason, Refusal};

// What is prepared of a payload that keeps the rules.
#[derive(Clone, Copy)]
pub struct Prepared {
    pub id: BuildId,
    pub dependency: BuildId,
    pub placed: u64,
    pub edits: [Edit; Payload::RECORDS_MAX],
    pub edit_count: usize,
}

// The payload `file` for the host's slot and text. `image` is the slot's 8,192 bytes; a refusal leaves them as they were. Any
// bytes and any numbers get an answer.
pub fn prepare(file: &[u8], list: &[u8], host: Host, image: &mut [u8]) -> Result<Prepared, Refusal>
    ensures { Prepares (setting host list.now) file.now image.old
        (outcome result image.new) }
{
    if image.len() != Payload::PLACED_MAX {
        return refusal::refused(Reason::Invalid, Place::Nowhere);
    }
    if Host::TEXT_MAX < host.text_length {
        return refusal::refused(Reason::Invalid, Place::Nowhere);
    }
    let processor = host.processor;
    let reading = payload::read::read(processor, file)?;
    let mut slot = [0u8; Payload::PLACED_MAX];
    let built = build::build(&mut slot, file, list, host, reading)?;
    words::bytes::copy(image, 0, &slot);
    let id = reading.id;
    let dependency = reading.dependency;
    let edits = built.edits;
    Ok(Prepared {
        id,
        dependency,
        placed: built.placed,
        edits,
        edit_count: built.edit_count,
    })
}
