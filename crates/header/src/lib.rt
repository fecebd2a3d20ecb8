// The file's size and header.
#![tactic(auto)]

ghost use Rattle.std.specs.Prelude.{◌≡◌};
ghost use Rattle.machine.specs.Host.{machine_of};
ghost use Rattle.header.specs.Header.{fields_ok, header_rules};

use elf::FileHeader;
use machine::processor::Processor;
use records::payload::Payload;
use records::refusal::{Place, Reason, Refusal};

// Whether the header's fields are those of a payload.
fn fields_ok(processor: Processor, h: FileHeader) -> bool
    ensures { result ≡ fields_ok (machine_of processor) h }
{
    if h.magic != 0x464c457f {
        return false;
    }
    if h.ei_class != 2 {
        return false;
    }
    if h.ei_data != 1 {
        return false;
    }
    if h.ei_version != 1 {
        return false;
    }
    if h.e_type != 1 {
        return false;
    }
    if h.e_machine != processor.number() {
        return false;
    }
    if h.e_version != 1 {
        return false;
    }
    if h.e_shentsize != elf::SECTION_HEADER_SIZE as u64 {
        return false;
    }
    if h.e_shnum < 1 {
        return false;
    }
    if (Payload::SECTIONS_MAX as u64) < h.e_shnum {
        return false;
    }
    true
}

// A file of a wrong size or with a wrong header is refused with 8, nowhere.
pub fn check_header(processor: Processor, file: &[u8]) -> Result<(), Refusal>
    ensures { result ≡ header_rules (machine_of processor) file.now }
{
    let bad = Err(Refusal {
        reason: Reason::BadHeader,
        place: Place::Nowhere,
    });
    if file.len() < Payload::FILE_MIN {
        return bad;
    }
    if Payload::FILE_MAX < file.len() {
        return bad;
    }
    let h = elf::read_file_header(file);
    if !fields_ok(processor, h) {
        return bad;
    }
    let table = elf::SECTION_HEADER_SIZE as u64 * h.e_shnum;
    if !words::address::lies_within(h.e_shoff, table, file.len() as u64) {
        return bad;
    }
    Ok(())
}
