// The two notes: the payload's build-id, and the one that it depends on.
#![tactic(auto)]

ghost use Rattle.std.specs.Prelude.{◌≡◌, true, ◌≤◌};
ghost use Rattle.records.specs.Limits.{sections_max};
ghost use Rattle.notes.specs.Notes.{note_head_ok, note_ok, id_in, note_rules};

use elf::Note;
use object::sections::{self, SectionEntry};
use records::payload::{BuildId, Payload};
use records::refusal::{self, Place, Reason, Refusal};

// The note's sizes, type and name.
fn note_head_ok(head: Note) -> bool
    ensures { result ≡ note_head_ok head }
{
    if head.n_namesz != 4 {
        return false;
    }
    if head.n_descsz < Payload::ID_MIN as u64 {
        return false;
    }
    if (Payload::ID_MAX as u64) < head.n_descsz {
        return false;
    }
    if head.n_type != 3 {
        return false;
    }
    head.name == 0x00554e47
}

// Whether a section's contents are one note with an id, and nothing more.
fn note_ok(note: &[u8]) -> bool
    ensures { result ≡ note_ok note.now }
{
    if note.len() < elf::NOTE_HEAD_SIZE {
        return false;
    }
    let head = elf::read_note(note);
    if !note_head_ok(head) {
        return false;
    }
    let id_length = head.n_descsz as usize;
    if note.len() != elf::NOTE_HEAD_SIZE + 4 * ((id_length + 3) / 4) {
        return false;
    }
    let padding = elf::NOTE_HEAD_SIZE + id_length;
    words::bytes::all_zero(&note[padding..])
}

// The id of a note: its bytes, and zeros after them.
pub fn id_in(note: &[u8]) -> BuildId
    requires { note_ok note.now ≡ true }
    ensures { result ≡ id_in note.now }
{
    let head = elf::read_note(note);
    let id_length = head.n_descsz as usize;
    let start = elf::NOTE_HEAD_SIZE;
    let end = start + id_length;
    let mut bytes = [0u8; Payload::ID_MAX];
    words::bytes::copy(&mut bytes, 0, &note[start..end]);
    BuildId {
        bytes,
        length: id_length as u32,
    }
}

// The notes in order, up to the first that is none.
pub fn check_notes(
    file: &[u8],
    table: [SectionEntry; Payload::SECTIONS_MAX],
    count: usize,
) -> Result<(), Refusal>
    requires { count ≤ sections_max }
    ensures { result ≡ note_rules file.now table count }
{
    for (i, one) in table[..count].iter().enumerate() {
        if one.kind.is_note() {
            let note = sections::contents_of(file, one.header);
            if !note_ok(note) {
                return refusal::refused(Reason::Invalid, Place::Section(i as u16));
            }
        }
    }
    Ok(())
}
