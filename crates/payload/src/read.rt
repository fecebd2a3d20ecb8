// A payload's file read up to its notes: refused with number and place, or what the later stages need of it.
ghost use Rattle.std.specs.Prelude.{◌≡◌, ◌≤◌, true, Ok};
ghost use Rattle.records.specs.Limits.{sections_max};
ghost use Rattle.machine.specs.Host.{machine_of};
ghost use Rattle.kinds.specs.Kinds.{is_note_kind};
ghost use Rattle.payload.specs.Reading.{table_rules, id_of, accepted_reading, reading_of};

use super::{counts, relocation_headers};
use kinds::Kind;
use machine::processor::Processor;
use object::sections::{self, SectionEntry};
use records::payload::{BuildId, Payload};
use records::refusal::Refusal;

// What is read of a file that keeps the rules.
#[derive(Clone, Copy)]
pub struct Reading {
    pub count: usize,
    pub sections: [SectionEntry; Payload::SECTIONS_MAX],
    // The indices of the symbol table and of the function records.
    pub symbols: usize,
    pub records: usize,
    // Those of the two notes, the payload's id and the one that it depends on.
    pub id_section: usize,
    pub depends_section: usize,
    pub id: BuildId,
    pub dependency: BuildId,
}

// The rules of the section table, in order.
#[tactic(auto, unfolding(crate::specs::Reading::table_rules))]
fn check_table(
    file: &[u8],
    table: [SectionEntry; Payload::SECTIONS_MAX],
    count: usize,
) -> Result<(), Refusal>
    requires { count ≤ sections_max }
    ensures { result ≡ table_rules file.now table count }
{
    sections::check_sections(file.len() as u64, table, count)?;
    counts::check_counts(table, count)?;
    let symbols = counts::index_of(table, count, Kind::Symbols);
    relocation_headers::check_relocation_headers(table, count, symbols)?;
    notes::check_notes(file, table, count)
}

// The id in the note of a kind.
fn id_of(
    file: &[u8],
    table: [SectionEntry; Payload::SECTIONS_MAX],
    count: usize,
    kind: Kind,
) -> BuildId
    requires { (count ≤ sections_max) × (table_rules file.now table count ≡ Ok tt) × (is_note_kind kind ≡ true) }
    ensures { result ≡ id_of file.now table count kind }
{
    let i = counts::index_of(table, count, kind);
    let one = table[i];
    notes::id_in(sections::contents_of(file, one.header))
}

fn accept(file: &[u8], table: [SectionEntry; Payload::SECTIONS_MAX], count: usize) -> Reading
    requires { (count ≤ sections_max) × (table_rules file.now table count ≡ Ok tt) }
    ensures { result ≡ accepted_reading file.now table count }
{
    Reading {
        count,
        sections: table,
        symbols: counts::index_of(table, count, Kind::Symbols),
        records: counts::index_of(table, count, Kind::Records),
        id_section: counts::index_of(table, count, Kind::BuildId),
        depends_section: counts::index_of(table, count, Kind::Depends),
        id: id_of(file, table, count, Kind::BuildId),
        dependency: id_of(file, table, count, Kind::Depends),
    }
}

// Any bytes: the first rule that is broken, or what was read.
#[tactic(auto, unfolding(crate::specs::Reading::reading_of, crate::specs::Reading::read_rules))]
pub fn read(processor: Processor, file: &[u8]) -> Result<Reading, Refusal>
    ensures { result ≡ reading_of (machine_of processor) file.now }
{
    header::check_header(processor, file)?;
    sections::check_name_table(file)?;
    let h = elf::read_file_header(file);
    let count = h.e_shnum as usize;
    let table = sections::read_sections(file);
    check_table(file, table, count)?;
    Ok(accept(file, table, count))
}
