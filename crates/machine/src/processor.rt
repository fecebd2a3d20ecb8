// The processors: each with its e_machine, its relocation types, its jump and its fill.
ghost use Rattle.std.specs.Prelude.{◌≡◌, ◌+◌, ◌≤◌, length};
ghost use Rattle.words.specs.Splice.{splice};
ghost use Rattle.machine.specs.Machine.{edit_bytes, edit_max};
ghost use Rattle.machine.specs.Host.{machine_of};
ghost use Rattle.machine.specs.X86.{type_of, is_fill_size};

use super::fields::FieldType;
use records::payload::{Edit, EditKind};

#[derive(Clone, Copy)]
pub enum Processor {
    X86_64,
}

// What a relocation's number asks for.
#[derive(Clone, Copy)]
pub enum RelocationType {
    Nothing,
    Stores(FieldType),
    Unknown,
}

// The longest edit.
pub const EDIT_MAX: u64 = 31;

// The relocation types of x86-64.
fn x86_type(number: u64) -> RelocationType
    ensures { result ≡ type_of number }
{
    if number == 0 {
        return RelocationType::Nothing;
    }
    if number == 1 {
        return RelocationType::Stores(FieldType::Absolute);
    }
    if number == 2 {
        return RelocationType::Stores(FieldType::Relative);
    }
    if number == 4 {
        return RelocationType::Stores(FieldType::Relative);
    }
    RelocationType::Unknown
}

// The sizes of a fill on x86-64.
fn x86_fill(size: u64) -> bool
    ensures { result ≡ is_fill_size size }
{
    if size < 1 {
        return false;
    }
    size <= EDIT_MAX
}

impl Processor {
    // The e_machine of its files.
    pub fn number(self) -> u64
        ensures { result ≡ (machine_of self).number }
    {
        match self {
            Processor::X86_64 => 62,
        }
    }

    pub fn relocation_type(self, number: u64) -> RelocationType
        ensures { result ≡ (machine_of self).relocation number }
    {
        match self {
            Processor::X86_64 => x86_type(number),
        }
    }

    // Whether code may stand at this address.
    pub fn is_address(self, address: u64) -> bool
        ensures { result ≡ (machine_of self).address address }
    {
        match self {
            Processor::X86_64 => true,
        }
    }

    // How many bytes a jump has, and so the least old_size.
    pub fn jump_length(self) -> u64
        ensures { (result ≡ (machine_of self).jump_length) × (result ≤ edit_max) }
    {
        match self {
            Processor::X86_64 => 5,
        }
    }

    // The displacement of a jump from `old` to `new`.
    pub fn displacement(self, old: u64, new: u64) -> u64
        ensures { result ≡ (machine_of self).displacement old new }
    {
        match self {
            Processor::X86_64 => words::address::subtract(new, words::address::add(old, 5)),
        }
    }

    // Whether a jump can have this displacement.
    pub fn reaches(self, displacement: u64) -> bool
        ensures { result ≡ (machine_of self).reaches displacement }
    {
        match self {
            Processor::X86_64 => words::address::fits_signed(displacement, 32),
        }
    }

    // Whether a fill may have this size.
    pub fn is_fill_size(self, size: u64) -> bool
        ensures { result ≡ (machine_of self).fill_size size }
    {
        match self {
            Processor::X86_64 => x86_fill(size),
        }
    }

    // The bytes of an edit over those of `text` from `at` on.
    pub fn write_edit(self, text: &mut [u8], at: usize, edit: Edit)
        requires { at + length (edit_bytes (machine_of self) edit) ≤ length text.old }
        ensures { text.new ≡ splice text.old at (edit_bytes (machine_of self) edit) }
    {
        match self {
            Processor::X86_64 => write_x86(text, at, edit),
        }
    }
}

fn write_x86(text: &mut [u8], at: usize, edit: Edit)
    requires { at + length (edit_bytes (machine_of Processor.X86_64) edit) ≤ length text.old }
    ensures { text.new ≡ splice text.old at (edit_bytes (machine_of Processor.X86_64) edit) }
{
    let kind = edit.kind;
    match kind {
        EditKind::Jump(displacement) => {
            words::bytes::fill(text, at, 1, 0xe9);
            words::le::write(text, at + 1, 4, displacement);
        }
        EditKind::Fill => words::bytes::fill(text, at, edit.length as usize, 0x90),
    }
}
