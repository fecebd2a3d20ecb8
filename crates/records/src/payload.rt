// A payload's record, and the limits of a payload.
ghost use Rattle.std.specs.Prelude.{◌≡◌, ◌≤◌, length};
ghost use Rattle.words.specs.Splice.{splice};
ghost use Rattle.records.specs.Limits.{name_max, all_limits};
ghost use Rattle.records.specs.Payload.{no_edit, no_id, empty, named};

// What an edit writes: a jump by this displacement, or no-op instructions.
#[derive(Clone, Copy)]
pub enum EditKind {
    Jump(u64),
    Fill,
}

// One edit of the text: `length` bytes from `offset` on.
#[derive(Clone, Copy)]
pub struct Edit {
    pub offset: u32,
    pub length: u32,
    pub kind: EditKind,
}

// A build-id: `length` bytes, and zeros after them.
#[derive(Clone, Copy)]
pub struct BuildId {
    pub bytes: [u8; Payload::ID_MAX],
    pub length: u32,
}

// Document 01: "Status: 1 checked, 2 applied." The last result is kept as its magnitude.
#[derive(Clone, Copy)]
pub struct Payload {
    pub name: [u8; Payload::NAME_MAX],
    pub name_length: u32,
    pub slot: u32,
    pub status: u32,
    pub result: u32,
    pub id_length: u32,
    pub dependency: BuildId,
    pub edits: [Edit; Payload::RECORDS_MAX],
    pub edit_count: u32,
}

// The limits as numbers, to be tied to their definitions.
#[derive(Clone, Copy)]
pub struct Limits {
    pub file_min: usize,
    pub file_max: usize,
    pub sections_max: usize,
    pub records_max: usize,
    pub record_size: usize,
    pub placed_max: usize,
    pub id_min: usize,
    pub id_max: usize,
    pub name_min: usize,
    pub name_max: usize,
}

impl Edit {
    // No edit.
    pub fn none() -> Self
        ensures { result ≡ no_edit }
    {
        Edit {
            offset: 0,
            length: 0,
            kind: EditKind::Fill,
        }
    }
}

impl BuildId {
    // No id: of length 0.
    pub fn none() -> Self
        ensures { result ≡ no_id }
    {
        BuildId {
            bytes: [0u8; Payload::ID_MAX],
            length: 0,
        }
    }
}

// The bytes of a name over the front of the record's.
fn fill_name(kept: &mut [u8; Payload::NAME_MAX], name: &[u8])
    requires { length name.now ≤ name_max }
    ensures { kept.new ≡ splice kept.old 0 name.now }
{
    words::bytes::copy(kept, 0, name);
}

impl Payload {
    pub const FILE_MIN: usize = 64;

    pub const FILE_MAX: usize = 32768;

    pub const SECTIONS_MAX: usize = 64;

    pub const RECORDS_MAX: usize = 32;

    pub const RECORD_SIZE: usize = 64;

    pub const PLACED_MAX: usize = 8192;

    pub const ID_MIN: usize = 1;

    pub const ID_MAX: usize = 64;

    pub const NAME_MIN: usize = 2;

    pub const NAME_MAX: usize = 128;

    // The limits of the code are those of the definitions.
    pub fn limits() -> Limits
        ensures { result ≡ all_limits }
    {
        Limits {
            file_min: Payload::FILE_MIN,
            file_max: Payload::FILE_MAX,
            sections_max: Payload::SECTIONS_MAX,
            records_max: Payload::RECORDS_MAX,
            record_size: Payload::RECORD_SIZE,
            placed_max: Payload::PLACED_MAX,
            id_min: Payload::ID_MIN,
            id_max: Payload::ID_MAX,
            name_min: Payload::NAME_MIN,
            name_max: Payload::NAME_MAX,
        }
    }

    // The record of no payload.
    pub fn empty() -> Self
        ensures { result ≡ empty }
    {
        let no_edit = Edit::none();
        let no_id = BuildId::none();
        Payload {
            name: [0u8; Payload::NAME_MAX],
            name_length: 0,
            slot: 0,
            status: 0,
            result: 0,
            id_length: 0,
            dependency: no_id,
            edits: [no_edit; Payload::RECORDS_MAX],
            edit_count: 0,
        }
    }

    // The empty record with a name: the caller's bytes, and zeros after them.
    pub fn named(name: &[u8]) -> Self
        requires { length name.now ≤ name_max }
        ensures { result ≡ named name.now }
    {
        let mut one = Payload::empty();
        fill_name(&mut one.name, name);
        one.name_length = name.len() as u32;
        one
    }
}
