// The ELF gABI's layouts, 64-bit and little-endian, read into structs by value.
// A `read_` function reads bytes that its caller knows to be there.
#![tactic(auto)]

ghost use Rattle.std.specs.Prelude.{◌≡◌, ◌+◌, ◌≤◌, length};
ghost use Rattle.words.specs.Name.{zero_from};
ghost use Rattle.elf.specs.Layout.{
  file_header_size,
  section_header_size,
  symbol_size,
  relocation_size,
  note_head_size,
  file_header_of,
  section_header_of,
  symbol_of,
  relocation_of,
  note_of,
};
ghost use Rattle.elf.specs.Ranges.{
  FileHeaderRanges,
  SectionHeaderRanges,
  SymbolRanges,
  RelocationRanges,
  NoteRanges,
};

// The bytes of each.
pub const FILE_HEADER_SIZE: usize = 64;

pub const SECTION_HEADER_SIZE: usize = 64;

pub const SYMBOL_SIZE: usize = 24;

pub const RELOCATION_SIZE: usize = 24;

pub const NOTE_HEAD_SIZE: usize = 16;

#[derive(Clone, Copy)]
pub struct FileHeader {
    pub magic: u64,
    pub ei_class: u64,
    pub ei_data: u64,
    pub ei_version: u64,
    pub e_type: u64,
    pub e_machine: u64,
    pub e_version: u64,
    pub e_shoff: u64,
    pub e_shentsize: u64,
    pub e_shnum: u64,
    pub e_shstrndx: u64,
}

#[derive(Clone, Copy)]
pub struct SectionHeader {
    pub sh_name: u64,
    pub sh_type: u64,
    pub sh_flags: u64,
    pub sh_offset: u64,
    pub sh_size: u64,
    pub sh_link: u64,
    pub sh_info: u64,
    pub sh_addralign: u64,
    pub sh_entsize: u64,
}

#[derive(Clone, Copy)]
pub struct Symbol {
    pub st_name: u64,
    pub st_info: u64,
    pub st_shndx: u64,
    pub st_value: u64,
}

// r_info's low half is the type and its high half the symbol.
#[derive(Clone, Copy)]
pub struct Relocation {
    pub r_offset: u64,
    pub r_type: u64,
    pub r_symbol: u64,
    pub r_addend: u64,
}

// The head of a note: its name's size, its descriptor's size, its type, and its name's first four bytes.
#[derive(Clone, Copy)]
pub struct Note {
    pub n_namesz: u64,
    pub n_descsz: u64,
    pub n_type: u64,
    pub name: u64,
}

// The 64 bytes of the file header, which stands at the file's front.
pub fn read_file_header(file: &[u8]) -> FileHeader
    requires { file_header_size ≤ length file.now }
    ensures value { result ≡ file_header_of file.now }
    ensures file_header_ranges { FileHeaderRanges result }
{
    FileHeader {
        magic: words::le::read(file, 0, 4),
        ei_class: words::le::read(file, 4, 1),
        ei_data: words::le::read(file, 5, 1),
        ei_version: words::le::read(file, 6, 1),
        e_type: words::le::read(file, 16, 2),
        e_machine: words::le::read(file, 18, 2),
        e_version: words::le::read(file, 20, 4),
        e_shoff: words::le::read(file, 40, 8),
        e_shentsize: words::le::read(file, 58, 2),
        e_shnum: words::le::read(file, 60, 2),
        e_shstrndx: words::le::read(file, 62, 2),
    }
}

// The 64 bytes of a section header.
pub fn read_section_header(file: &[u8], at: usize) -> SectionHeader
    requires { at + section_header_size ≤ length file.now }
    ensures value { result ≡ section_header_of file.now at }
    ensures section_header_ranges { SectionHeaderRanges result }
{
    SectionHeader {
        sh_name: words::le::read(file, at, 4),
        sh_type: words::le::read(file, at + 4, 4),
        sh_flags: words::le::read(file, at + 8, 8),
        sh_offset: words::le::read(file, at + 24, 8),
        sh_size: words::le::read(file, at + 32, 8),
        sh_link: words::le::read(file, at + 40, 4),
        sh_info: words::le::read(file, at + 44, 4),
        sh_addralign: words::le::read(file, at + 48, 8),
        sh_entsize: words::le::read(file, at + 56, 8),
    }
}

// The 24 bytes of a symbol.
pub fn read_symbol(table: &[u8], at: usize) -> Symbol
    requires { at + symbol_size ≤ length table.now }
    ensures value { result ≡ symbol_of table.now at }
    ensures symbol_ranges { SymbolRanges result }
{
    Symbol {
        st_name: words::le::read(table, at, 4),
        st_info: words::le::read(table, at + 4, 1),
        st_shndx: words::le::read(table, at + 6, 2),
        st_value: words::le::read(table, at + 8, 8),
    }
}

// The 24 bytes of a relocation.
pub fn read_relocation(entries: &[u8], at: usize) -> Relocation
    requires { at + relocation_size ≤ length entries.now }
    ensures value { result ≡ relocation_of entries.now at }
    ensures relocation_ranges { RelocationRanges result }
{
    Relocation {
        r_offset: words::le::read(entries, at, 8),
        r_type: words::le::read(entries, at + 8, 4),
        r_symbol: words::le::read(entries, at + 12, 4),
        r_addend: words::le::read(entries, at + 16, 8),
    }
}

// The 16 bytes of a note's head.
pub fn read_note(contents: &[u8]) -> Note
    requires { note_head_size ≤ length contents.now }
    ensures value { result ≡ note_of contents.now }
    ensures note_ranges { NoteRanges result }
{
    Note {
        n_namesz: words::le::read(contents, 0, 4),
        n_descsz: words::le::read(contents, 4, 4),
        n_type: words::le::read(contents, 8, 4),
        name: words::le::read(contents, 12, 4),
    }
}

// Where the name that begins at `offset` of a string table ends: at its first zero within the table.
pub fn name_end(table: &[u8], offset: u64) -> Option<usize>
    ensures { result ≡ zero_from table.now offset }
{
    words::bytes::find_zero(table, offset as usize)
}
