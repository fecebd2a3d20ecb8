// What a section is, by its type, its flag 0x2 and its name.
#![tactic(auto)]

ghost use Rattle.std.specs.Prelude.{◌≡◌};
ghost use Rattle.elf.specs.Name.{name_in};
ghost use Rattle.kinds.specs.Kinds.{
  is_allocated,
  starts_with,
  in_family,
  is_placed_name,
  is_ignored_name,
  note_kind,
  allocated_kind,
  plain_kind,
  kind_named,
  kind_of,
  is_note_kind,
};

use elf::SectionHeader;
use words::bytes;

#[derive(Clone, Copy, PartialEq, Eq)]
pub enum Kind {
    // Type 0: ignored.
    Null,
    // Its name does not end within the name table.
    Unnamed,
    // Placed in the slot: code, constants, data, zeroed data.
    Placed,
    // The function records, placed too.
    Records,
    // The two notes: read, and placed where they have flag 0x2.
    Depends,
    BuildId,
    // Read: the symbol table, string tables, relocations.
    Symbols,
    Strings,
    Relocations,
    // Ignored: comments and debug information.
    Ignored,
    // Anything else: refused.
    Unknown,
}

impl Kind {
    // Whether it is one of the two notes.
    pub fn is_note(self) -> bool
        ensures { result ≡ is_note_kind self }
    {
        matches!(self, Kind::Depends | Kind::BuildId)
    }
}

// Flag 0x2.
fn is_allocated(h: SectionHeader) -> bool
    ensures { result ≡ is_allocated h }
{
    h.sh_flags & 2 == 2
}

fn starts_with(front: &[u8], name: &[u8]) -> bool
    ensures { result ≡ starts_with front.now name.now }
{
    let n = front.len();
    if name.len() < n {
        return false;
    }
    bytes::same(&name[..n], front)
}

// Whether the name is `front`, alone or followed by a dot and more.
fn in_family(front: &[u8], name: &[u8]) -> bool
    ensures { result ≡ in_family front.now name.now }
{
    if !starts_with(front, name) {
        return false;
    }
    let n = front.len();
    if name.len() == n {
        return true;
    }
    if name.len() - n < 2 {
        return false;
    }
    name[n] == 46
}

fn is_placed_name(name: &[u8]) -> bool
    ensures { result ≡ is_placed_name name.now }
{
    if in_family(b".text", name) {
        return true;
    }
    if in_family(b".rodata", name) {
        return true;
    }
    if in_family(b".data", name) {
        return true;
    }
    in_family(b".bss", name)
}

fn is_ignored_name(name: &[u8]) -> bool
    ensures { result ≡ is_ignored_name name.now }
{
    if bytes::same(name, b".comment") {
        return true;
    }
    if bytes::same(name, b".note.GNU-stack") {
        return true;
    }
    starts_with(b".debug_", name)
}

// A note's kind, where its type is a note's.
fn note_kind(h: SectionHeader, kind: Kind) -> Kind
    ensures { result ≡ note_kind h kind }
{
    if h.sh_type == 1 {
        return kind;
    }
    if h.sh_type == 7 {
        return kind;
    }
    Kind::Unknown
}

fn allocated_kind(h: SectionHeader, name: &[u8]) -> Kind
    ensures { result ≡ allocated_kind h name.now }
{
    if !is_placed_name(name) {
        return Kind::Unknown;
    }
    if h.sh_type == 1 {
        return Kind::Placed;
    }
    if h.sh_type == 7 {
        return Kind::Placed;
    }
    if h.sh_type == 8 {
        return Kind::Placed;
    }
    Kind::Unknown
}

fn plain_kind(h: SectionHeader, name: &[u8]) -> Kind
    ensures { result ≡ plain_kind h name.now }
{
    let t = h.sh_type;
    if t == 2 {
        return Kind::Symbols;
    }
    if t == 3 {
        return Kind::Strings;
    }
    if t == 4 {
        return Kind::Relocations;
    }
    if t != 1 {
        return Kind::Unknown;
    }
    if is_ignored_name(name) {
        return Kind::Ignored;
    }
    Kind::Unknown
}

#[tactic(auto, unfolding(crate::specs::Kinds::kind_named))]
fn kind_named(h: SectionHeader, name: &[u8]) -> Kind
    ensures { result ≡ kind_named h name.now }
{
    if bytes::same(name, b".livepatch.funcs") {
        if !is_allocated(h) {
            return Kind::Unknown;
        }
        if h.sh_type != 1 {
            return Kind::Unknown;
        }
        return Kind::Records;
    }
    if bytes::same(name, b".livepatch.depends") {
        return note_kind(h, Kind::Depends);
    }
    if bytes::same(name, b".note.gnu.build-id") {
        return note_kind(h, Kind::BuildId);
    }
    if is_allocated(h) {
        return allocated_kind(h, name);
    }
    plain_kind(h, name)
}

// The kind of a section, of any type but 0, whose name stands in this table.
pub fn kind_in(h: SectionHeader, table: &[u8]) -> Kind
    ensures { result ≡ kind_of h (name_in table.now h.sh_name) }
{
    let start = h.sh_name as usize;
    let Some(end) = elf::name_end(table, h.sh_name) else {
        return Kind::Unnamed;
    };
    kind_named(h, &table[start..end])
}
