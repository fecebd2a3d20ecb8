// The edits of a payload read.
ghost use Rattle.std.specs.Prelude.{◌≡◌, ◌+◌, ◌*◌, ◌≤◌, length};
ghost use Rattle.records.specs.Limits.{records_max};
ghost use Rattle.state_bytes.specs.Flags.{kind_ok, edits_ok};
ghost use Rattle.state_bytes.specs.Layout.{edit_size};
ghost use Rattle.state_bytes.specs.Stored.{kind_from, edit_at, edits_at};

use super::{layout, numbers};
use records::payload::{Edit, EditKind, Payload};

fn kind_from(number: u32, displacement: u64) -> EditKind
    ensures { result ≡ kind_from number displacement }
{
    if number == 1 {
        return EditKind::Jump(displacement);
    }
    EditKind::Fill
}

fn load_edit(b: &[u8], at: usize) -> Edit
    requires { at + edit_size ≤ length b.now }
    ensures { result ≡ edit_at b.now at }
{
    let offset = numbers::load4(b, at);
    let length = numbers::load4(b, at + 4);
    let number = numbers::load4(b, at + 8);
    let kind = kind_from(number, numbers::load8(b, at + 12));
    Edit {
        offset,
        length,
        kind,
    }
}

// The edits from `at` on.
pub(crate) fn load_edits(b: &[u8], at: usize) -> [Edit; Payload::RECORDS_MAX]
    requires { at + edit_size * records_max ≤ length b.now }
    ensures { result ≡ edits_at b.now at }
{
    let none = Edit::none();
    let mut edits = [none; Payload::RECORDS_MAX];
    for (i, edit) in edits.iter_mut().enumerate() {
        *edit = load_edit(b, at + layout::EDIT_SIZE * i);
    }
    edits
}

// Whether the edit at this place is a jump, or no-ops, which have no displacement.
fn kind_ok(b: &[u8], at: usize) -> bool
    requires { at + edit_size ≤ length b.now }
    ensures { result ≡ kind_ok b.now at }
{
    let number = numbers::load4(b, at + 8);
    if number == 0 {
        return numbers::load8(b, at + 12) == 0;
    }
    number == 1
}

// The edits from this place on.
pub(crate) fn edits_ok(b: &[u8], at: usize) -> bool
    requires { at + edit_size * records_max ≤ length b.now }
    ensures { result ≡ edits_ok b.now at }
{
    (0..Payload::RECORDS_MAX).all(|i| kind_ok(b, at + layout::EDIT_SIZE * i))
}
