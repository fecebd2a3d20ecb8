// How many sections of each kind there are, and where the one stands that must be alone.
ghost use Rattle.std.specs.Prelude.{◌≡◌, ◌≤◌, ◌<◌};
ghost use Rattle.records.specs.Limits.{sections_max};
ghost use Rattle.payload.specs.Counts.{count_of, index_of, symbol_table_ok, records_size_ok, count_rules};

use elf::SectionHeader;
use kinds::Kind;
use object::sections::SectionEntry;
use records::payload::Payload;
use records::refusal::{self, Place, Reason, Refusal};

fn count_of(table: [SectionEntry; Payload::SECTIONS_MAX], count: usize, kind: Kind) -> usize
    requires { count ≤ sections_max }
    ensures { result ≡ count_of table count kind }
{
    table[..count].iter().filter(|s| s.kind == kind).count()
}

// The first section of a kind, or 0 where there is none.
pub(crate) fn index_of(
    table: [SectionEntry; Payload::SECTIONS_MAX],
    count: usize,
    kind: Kind,
) -> usize
    requires { count ≤ sections_max }
    ensures { (result ≡ index_of table count kind) × (result < sections_max) }
{
    table[..count]
        .iter()
        .position(|s| s.kind == kind)
        .unwrap_or(0)
}

fn symbol_table_ok(
    table: [SectionEntry; Payload::SECTIONS_MAX],
    count: usize,
    h: SectionHeader,
) -> bool
    requires { count ≤ sections_max }
    ensures { result ≡ symbol_table_ok table count h }
{
    if h.sh_entsize != elf::SYMBOL_SIZE as u64 {
        return false;
    }
    if h.sh_size % (elf::SYMBOL_SIZE as u64) != 0 {
        return false;
    }
    let link = h.sh_link as usize;
    if count <= link {
        return false;
    }
    let strings = table[link];
    let names = strings.header;
    names.sh_type == 3
}

fn records_size_ok(h: SectionHeader) -> bool
    ensures { result ≡ records_size_ok h }
{
    let size = h.sh_size;
    let one = Payload::RECORD_SIZE as u64;
    if size < one {
        return false;
    }
    if one * (Payload::RECORDS_MAX as u64) < size {
        return false;
    }
    size % one == 0
}

// One type 2 section with a right header, one of each of the three names, and a right number of records.
#[tactic(auto, unfolding(crate::specs::Counts::count_rules))]
pub(crate) fn check_counts(
    table: [SectionEntry; Payload::SECTIONS_MAX],
    count: usize,
) -> Result<(), Refusal>
    requires { count ≤ sections_max }
    ensures { result ≡ count_rules table count }
{
    let bad = Err(Refusal {
        reason: Reason::Invalid,
        place: Place::Nowhere,
    });
    if count_of(table, count, Kind::Symbols) != 1 {
        return bad;
    }
    let symbols = index_of(table, count, Kind::Symbols);
    let entry = table[symbols];
    if !symbol_table_ok(table, count, entry.header) {
        return refusal::refused(Reason::Invalid, Place::Section(symbols as u16));
    }
    if count_of(table, count, Kind::Records) != 1 {
        return bad;
    }
    if count_of(table, count, Kind::Depends) != 1 {
        return bad;
    }
    if count_of(table, count, Kind::BuildId) != 1 {
        return bad;
    }
    let records = index_of(table, count, Kind::Records);
    let listed = table[records];
    if !records_size_ok(listed.header) {
        return refusal::refused(Reason::Invalid, Place::Section(records as u16));
    }
    Ok(())
}
