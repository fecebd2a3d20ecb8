// The edits of a payload written.
ghost use Rattle.std.specs.Prelude.{◌≡◌, map, ◌+◌, ◌*◌, ◌≤◌, length};
ghost use Rattle.words.specs.Splice.{splice};
ghost use Rattle.records.specs.Limits.{records_max};
ghost use Rattle.state_bytes.specs.Fields.{chained};
ghost use Rattle.state_bytes.specs.Layout.{edit_size};
ghost use Rattle.state_bytes.specs.Stored.{kind_number, displacement_of, stored_edit, edit_at, edits_at};

use super::numbers;
use records::payload::{Edit, EditKind, Payload};
use state_bytes::layout;

fn kind_number(kind: EditKind) -> u32
    ensures { result ≡ kind_number kind }
{
    match kind {
        EditKind::Jump(_) => 1,
        EditKind::Fill => 0,
    }
}

fn displacement(kind: EditKind) -> u64
    ensures { result ≡ displacement_of kind }
{
    match kind {
        EditKind::Jump(d) => d,
        EditKind::Fill => 0,
    }
}

// What is stored is read back.
fn store_edit(b: &mut [u8], at: usize, edit: Edit)
    requires { at + edit_size ≤ length b.old }
    ensures b_after { b.new ≡ splice b.old at (stored_edit edit) }
    ensures edit_value { edit_at (stored_edit edit) 0 ≡ edit }
{
    let kind = edit.kind;
    numbers::store4(b, at, edit.offset);
    numbers::store4(b, at + 4, edit.length);
    numbers::store4(b, at + 8, kind_number(kind));
    numbers::store8(b, at + 12, displacement(kind));
}

pub(crate) fn store_edits(b: &mut [u8], at: usize, edits: [Edit; Payload::RECORDS_MAX])
    requires { at + edit_size * records_max ≤ length b.old }
    ensures b_after { b.new ≡ splice b.old at (chained (map stored_edit edits)) }
    ensures edits_len { (length edits ≡ records_max) × (edits_at (chained (map stored_edit edits)) 0 ≡ edits) }
{
    for (i, edit) in edits.iter().enumerate() {
        store_edit(b, at + layout::EDIT_SIZE * i, *edit);
    }
}
