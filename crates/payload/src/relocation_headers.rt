// The headers of the relocation sections.
ghost use Rattle.std.specs.Prelude.{◌≡◌, ◌≤◌};
ghost use Rattle.records.specs.Limits.{sections_max};
ghost use Rattle.payload.specs.RelocationHeaders.{is_target, relocation_header_ok, relocation_header_rules};

use kinds::Kind;
use object::sections::SectionEntry;
use records::payload::Payload;
use records::refusal::{self, Place, Reason, Refusal};

// Whether relocations may be made in this section, or it is ignored with them.
#[tactic(auto, unfolding(crate::specs::RelocationHeaders::is_target))]
fn is_target(s: SectionEntry) -> bool
    ensures { result ≡ is_target s }
{
    match s.kind {
        Kind::Placed => s.header.sh_type != 8,
        Kind::Records | Kind::Ignored => true,
        _ => false,
    }
}

fn relocation_header_ok(
    table: [SectionEntry; Payload::SECTIONS_MAX],
    count: usize,
    symbols: usize,
    s: SectionEntry,
) -> bool
    requires { count ≤ sections_max }
    ensures { result ≡ relocation_header_ok table count symbols s }
{
    let h = s.header;
    if h.sh_link != symbols as u64 {
        return false;
    }
    if h.sh_entsize != elf::RELOCATION_SIZE as u64 {
        return false;
    }
    if h.sh_size % (elf::RELOCATION_SIZE as u64) != 0 {
        return false;
    }
    let target = h.sh_info as usize;
    if count <= target {
        return false;
    }
    let entry = table[target];
    is_target(entry)
}

// The type 4 sections in order; `symbols` is the symbol table's index.
pub(crate) fn check_relocation_headers(
    table: [SectionEntry; Payload::SECTIONS_MAX],
    count: usize,
    symbols: usize,
) -> Result<(), Refusal>
    requires { count ≤ sections_max }
    ensures { result ≡ relocation_header_rules table count symbols }
{
    for i in 0..count {
        let one = table[i];
        if one.kind == Kind::Relocations && !relocation_header_ok(table, count, symbols, one) {
            return refusal::refused(Reason::Invalid, Place::Section(i as u16));
        }
    }
    Ok(())
}
