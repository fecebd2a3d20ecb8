// From a file that is read to the slot's bytes and the edits: placement, relocation, function records.
ghost use Rattle.std.specs.Prelude.{◌≡◌, ◌/◌, ◌≤◌, ◌<◌, length};
ghost use Rattle.records.specs.Limits.{sections_max, placed_max, record_size};
ghost use Rattle.machine.specs.Host.{host_machine, text_max};
ghost use Rattle.object.specs.Sections.{section_in};
ghost use Rattle.placement.specs.Placement.{no_bytes};
ghost use Rattle.acceptance.specs.Stages.{setting};
ghost use Rattle.prepare.specs.Prepare.{built_slot, refused_built, Ready, built_of};

use machine::host::Host;
use object::sections::SectionEntry;
use payload::read::Reading;
use records::payload::{Edit, Payload};
use records::refusal::Refusal;

// What is built of a payload that keeps the rules.
#[derive(Clone, Copy)]
pub struct Built {
    pub placed: u64,
    pub edits: [Edit; Payload::RECORDS_MAX],
    pub edit_count: usize,
}

// The slot's bytes are cleared.
fn nothing_built(image: &mut [u8], r: Refusal) -> Result<Built, Refusal>
    requires { length image.old ≡ placed_max }
    ensures { built_slot result image.new ≡ refused_built r }
{
    words::bytes::fill(image, 0, Payload::PLACED_MAX, 0);
    Err(r)
}

// How many function records section i has.
fn record_count(table: [SectionEntry; Payload::SECTIONS_MAX], i: usize) -> usize
    requires { i < sections_max }
    ensures { result ≡ (section_in table i).header.sh_size / record_size }
{
    let one = table[i];
    let h = one.header;
    h.sh_size as usize / Payload::RECORD_SIZE
}

// The file, which is read, for the host's slot and text. `image` is the slot's bytes, all zero.
pub fn build(
    image: &mut [u8],
    file: &[u8],
    list: &[u8],
    host: Host,
    reading: Reading,
) -> Result<Built, Refusal>
    requires { Ready (host_machine host) file.now reading × (host.text_length ≤ text_max) × (image.old ≡ no_bytes) }
    ensures { built_slot result image.new ≡ built_of (setting host list.now) file.now }
{
    let table = reading.sections;
    let placement = placement::place(image, file, table, reading.count)?;
    let layout = placement.layout;
    if let Err(r) = relocation::relocate::relocate(image, file, list, host, reading, layout) {
        return nothing_built(image, r);
    }
    let records = reading.records;
    let offsets = layout.offsets;
    let start = offsets[records] as usize;
    let end = placement.placed as usize;
    let count = record_count(table, records);
    match functions::read::read_functions(host, &image[..end], list, start, count) {
        Ok(found) => {
            let edits = found.edits;
            Ok(Built {
                placed: placement.placed,
                edits,
                edit_count: found.count,
            })
        }
        Err(r) => nothing_built(image, r),
    }
}
