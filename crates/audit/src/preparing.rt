// A payload prepared for its slot, into the caller's buffers.
ghost use Rattle.std.specs.Prelude.{◌≡◌};
ghost use Rattle.acceptance.specs.Stages.{setting};
ghost use Rattle.audit.specs.Preparing.{host_of, is_apart, ranges_ok, buffer_sizes_ok, buffers, left, Answers};

use machine::host::Host;
use machine::processor::Processor;
use records::payload::Payload;
use records::refusal::{Place, Reason, Refusal};

// A slot's address is a multiple of it.
const SLOT_ALIGN: u64 = 4096;

// Whether text and slot share no address: by differences, as either may end at 2^64.
fn is_apart(host: Host) -> bool
    ensures { result ≡ is_apart host }
{
    if host.text <= host.slot {
        return host.text_length <= host.slot - host.text;
    }
    Payload::PLACED_MAX as u64 <= host.text - host.slot
}

fn ranges_ok(host: Host) -> bool
    ensures { result ≡ ranges_ok host }
{
    if host.text_length < 1 {
        return false;
    }
    if Host::TEXT_MAX < host.text_length {
        return false;
    }
    if u64::MAX - host.text < host.text_length - 1 {
        return false;
    }
    if host.slot < 1 {
        return false;
    }
    if u64::MAX - host.slot < Payload::PLACED_MAX as u64 - 1 {
        return false;
    }
    if host.slot % SLOT_ALIGN != 0 {
        return false;
    }
    is_apart(host)
}

fn buffer_sizes_ok(image: usize, edits: usize, summary: usize) -> bool
    ensures { result ≡ buffer_sizes_ok image edits summary }
{
    if image != Payload::PLACED_MAX {
        return false;
    }
    if edits != encode::ENTRY_SIZE * Payload::RECORDS_MAX {
        return false;
    }
    summary == encode::SUMMARY_SIZE
}

// The payload `file` for the slot at `slot` and the `size` bytes of text at `text`: 0, or the refusal's number. Accepted, the slot's
// bytes, the edits and the summary are written; refused, nothing is.
pub fn prepare_payload(
    file: &[u8],
    list: &[u8],
    text: u64,
    size: u64,
    slot: u64,
    image: &mut [u8],
    edits: &mut [u8],
    summary: &mut [u8],
) -> u64
    ensures { Answers (setting (host_of text size slot) list.now) file.now
        (buffers image.old edits.old summary.old)
        (left result (buffers image.new edits.new summary.new)) }
{
    let host = Host {
        processor: Processor::X86_64,
        text,
        text_length: size,
        slot,
    };
    let bad = Refusal::new(Reason::Invalid, Place::Nowhere);
    if !buffer_sizes_ok(image.len(), edits.len(), summary.len()) {
        return bad.code();
    }
    if !ranges_ok(host) {
        return bad.code();
    }
    if !symbols::is_valid(list) {
        return bad.code();
    }
    let prepared = match prepare::prepare::prepare(file, list, host, image) {
        Ok(prepared) => prepared,
        Err(r) => return r.code(),
    };
    let made = prepared.edits;
    let count = prepared.edit_count;
    encode::write_edits(edits, host, made, count);
    let id = prepared.id;
    let dependency = prepared.dependency;
    encode::write_summary(summary, prepared.placed, count as u64, id, dependency);
    0
}
