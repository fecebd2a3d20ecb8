// The section table, and the checks of each section.
ghost use Rattle.std.specs.Prelude.{◌≡◌, ◌≤◌, ◌<◌, Ok};
ghost use Rattle.records.specs.Limits.{sections_max};
ghost use Rattle.header.specs.Header.{Headed};
ghost use Rattle.object.specs.Sections.{
  section_count,
  header_at,
  contents_of,
  name_table_rules,
  name_table,
  no_entry,
  consulted_fields,
  section_read,
  sections,
  known_type,
  known_flags,
  alignment_ok,
  contents_ok,
  section_rules,
  sections_rules,
};

use elf::SectionHeader;
use kinds::Kind;
use records::payload::Payload;
use records::refusal::{self, Place, Reason, Refusal};

// A section as it is read: its header, and what kind it is.
#[derive(Clone, Copy)]
pub struct SectionEntry {
    pub header: SectionHeader,
    pub kind: Kind,
}

impl SectionEntry {
    // The entry of no section.
    pub fn none() -> Self
        ensures { result ≡ no_entry }
    {
        let header = SectionHeader {
            sh_name: 0,
            sh_type: 0,
            sh_flags: 0,
            sh_offset: 0,
            sh_size: 0,
            sh_link: 0,
            sh_info: 0,
            sh_addralign: 0,
            sh_entsize: 0,
        };
        SectionEntry {
            header,
            kind: Kind::Null,
        }
    }
}

// The header of section i.
fn header_at(file: &[u8], i: u64) -> SectionHeader
    requires { Headed file.now × (i < section_count file.now) }
    ensures { result ≡ header_at file.now i }
{
    let h = elf::read_file_header(file);
    let at = h.e_shoff + elf::SECTION_HEADER_SIZE as u64 * i;
    elf::read_section_header(file, at as usize)
}

// e_shstrndx names a type 3 section with contents inside the file.
pub fn check_name_table(file: &[u8]) -> Result<(), Refusal>
    requires { Headed file.now }
    ensures { result ≡ name_table_rules file.now }
{
    let bad = Err(Refusal {
        reason: Reason::Invalid,
        place: Place::Nowhere,
    });
    let h = elf::read_file_header(file);
    if h.e_shnum <= h.e_shstrndx {
        return bad;
    }
    let names = header_at(file, h.e_shstrndx);
    if names.sh_type != 3 {
        return bad;
    }
    if !words::address::lies_within(names.sh_offset, names.sh_size, file.len() as u64) {
        return bad;
    }
    Ok(())
}

// The bytes of a section's contents that lie inside the file.
pub fn contents_of<'a>(file: &'a [u8], h: SectionHeader) -> &'a [u8]
    ensures { result.now ≡ contents_of file.now h }
{
    let offset = h.sh_offset as usize;
    let size = h.sh_size as usize;
    if file.len() < offset {
        return &file[..0];
    }
    if file.len() - offset < size {
        return &file[offset..];
    }
    let end = offset + size;
    &file[offset..end]
}

// The contents of the section that e_shstrndx names.
fn name_table<'a>(file: &'a [u8]) -> &'a [u8]
    requires { Headed file.now × (name_table_rules file.now ≡ Ok tt) }
    ensures { result.now ≡ name_table file.now }
{
    let h = elf::read_file_header(file);
    contents_of(file, header_at(file, h.e_shstrndx))
}

// The fields that a rule looks at; the others are 0.
fn consulted_fields(h: SectionHeader) -> SectionHeader
    ensures { result ≡ consulted_fields h }
{
    let t = h.sh_type;
    if t == 4 {
        return h;
    }
    let mut rest = h;
    rest.sh_info = 0;
    if t == 2 {
        return rest;
    }
    rest.sh_link = 0;
    rest.sh_entsize = 0;
    if t == 8 {
        rest.sh_offset = 0;
    }
    rest
}

// Section i: its header, and its kind by its name in the name table.
fn entry_at(file: &[u8], names: &[u8], i: u64) -> SectionEntry
    requires { Headed file.now × (i < section_count file.now) × (names.now ≡ name_table file.now) }
    ensures { result ≡ section_read file.now i }
{
    let h = header_at(file, i);
    if h.sh_type == 0 {
        return SectionEntry::none();
    }
    SectionEntry {
        header: consulted_fields(h),
        kind: kinds::kind_in(h, names),
    }
}

// All sections of the file, in a table of 64.
pub fn read_sections(file: &[u8]) -> [SectionEntry; Payload::SECTIONS_MAX]
    requires { Headed file.now × (name_table_rules file.now ≡ Ok tt) }
    ensures { result ≡ sections file.now }
{
    let h = elf::read_file_header(file);
    let count = h.e_shnum as usize;
    let names = name_table(file);
    let none = SectionEntry::none();
    let mut table = [none; Payload::SECTIONS_MAX];
    for i in 0..count {
        table[i] = entry_at(file, names, i as u64);
    }
    table
}

fn known_type(h: SectionHeader) -> bool
    ensures { result ≡ known_type h }
{
    let t = h.sh_type;
    if t <= 4 {
        return true;
    }
    if t == 7 {
        return true;
    }
    t == 8
}

fn known_flags(h: SectionHeader) -> bool
    ensures { result ≡ known_flags h }
{
    h.sh_flags & 0x77 == h.sh_flags
}

fn alignment_ok(h: SectionHeader) -> bool
    ensures { result ≡ alignment_ok h }
{
    let a = h.sh_addralign;
    if a == 0 {
        return true;
    }
    4096 % a == 0
}

fn contents_ok(h: SectionHeader, size: u64) -> bool
    ensures { result ≡ contents_ok h size }
{
    if h.sh_type == 8 {
        return true;
    }
    words::address::lies_within(h.sh_offset, h.sh_size, size)
}

// One section of a file of `size` bytes: name, type, flags, kind, alignment, contents.
#[tactic(auto, unfolding(crate::specs::Sections::section_rules))]
fn check_section(size: u64, i: u16, s: SectionEntry) -> Result<(), Refusal>
    ensures { result ≡ section_rules size i s }
{
    let h = s.header;
    let kind = s.kind;
    if h.sh_type == 0 {
        return Ok(());
    }
    if kind == Kind::Unnamed {
        return refusal::refused(Reason::Invalid, Place::Section(i));
    }
    if !known_type(h) {
        return refusal::refused(Reason::Unsupported, Place::Section(i));
    }
    if !known_flags(h) {
        return refusal::refused(Reason::Unsupported, Place::Section(i));
    }
    if kind == Kind::Unknown {
        return refusal::refused(Reason::Unsupported, Place::Section(i));
    }
    if !alignment_ok(h) {
        return refusal::refused(Reason::Invalid, Place::Section(i));
    }
    if !contents_ok(h, size) {
        return refusal::refused(Reason::Invalid, Place::Section(i));
    }
    Ok(())
}

// All sections in order, up to the first that breaks a rule.
pub fn check_sections(
    size: u64,
    table: [SectionEntry; Payload::SECTIONS_MAX],
    count: usize,
) -> Result<(), Refusal>
    requires { count ≤ sections_max }
    ensures { result ≡ sections_rules size table count }
{
    let first = table[0];
    let h = first.header;
    if h.sh_type != 0 {
        return refusal::refused(Reason::Invalid, Place::Section(0));
    }
    for (i, one) in table[..count].iter().enumerate() {
        let v = check_section(size, i as u16, *one);
        if let Err(_) = v {
            return v;
        }
    }
    Ok(())
}
