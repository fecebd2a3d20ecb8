// The bytes that the C boundary writes of a prepared payload.
#![tactic(auto)]

ghost use Rattle.std.specs.Prelude.{◌≡◌, ◌+◌, ◌<◌, ◌≤◌, ◌^◌, length};
ghost use Rattle.words.specs.Splice.{splice};
ghost use Rattle.records.specs.Limits.{records_max, id_max};
ghost use Rattle.machine.specs.Host.{host_machine};
ghost use Rattle.machine.specs.Machine.{edit_bytes, edit_max};
ghost use Rattle.encode.specs.Encode.{entry_size, edit_entry, edit_table, edits_size, summary_of, summary_size, Fitting};

use machine::host::Host;
use records::payload::{BuildId, Edit, Payload};

// The bytes of an entry: the address of an edit in 8, its length in 4, and room for its bytes.
pub const ENTRY_SIZE: usize = 48;
// The bytes of the summary: four numbers of 4 bytes, and both ids.
pub const SUMMARY_SIZE: usize = 16 + 2 * Payload::ID_MAX;

// One entry of the edits from `at` on: the edit's address, its length and its bytes.
fn write_entry(buffer: &mut [u8], at: usize, host: Host, edit: Edit)
    requires entry_size_in_bounds { at + entry_size ≤ length buffer.old }
    requires offset_bound { (host.text + edit.offset < 2 ^ 64) × (length (edit_bytes (host_machine host) edit) ≤ edit_max) }
    ensures { buffer.new ≡ splice buffer.old at
        (edit_entry (host_machine host) host.text edit) }
{
    words::bytes::fill(buffer, at, ENTRY_SIZE, 0);
    words::le::write(buffer, at, 8, host.text + edit.offset as u64);
    words::le::write(buffer, at + 8, 4, edit.length as u64);
    let processor = host.processor;
    processor.write_edit(buffer, at + 12, edit);
}

// All entries, zeros behind the last of `count`.
pub fn write_edits(buffer: &mut [u8], host: Host, edits: [Edit; Payload::RECORDS_MAX], count: usize)
    requires { (length buffer.old ≡ edits_size) × (count ≤ records_max) × Fitting (host_machine host) host.text
        edits count }
    ensures { buffer.new ≡ edit_table (host_machine host) host.text edits count }
{
    for r in 0..Payload::RECORDS_MAX {
        if r < count {
            let edit = edits[r];
            write_entry(buffer, ENTRY_SIZE * r, host, edit);
        } else {
            words::bytes::fill(buffer, ENTRY_SIZE * r, ENTRY_SIZE, 0);
        }
    }
}

// The bytes of an id, zeros after its end. An array of a record has a known length only behind a reference to an array.
fn write_id(buffer: &mut [u8], at: usize, bytes: &[u8; Payload::ID_MAX])
    requires { at + id_max ≤ length buffer.old }
    ensures buffer_after { buffer.new ≡ splice buffer.old at bytes.now }
    ensures bytes_len { length bytes.now ≡ id_max }
{
    words::bytes::copy(buffer, at, bytes);
}

// The summary: lengths and counts, then both ids.
pub fn write_summary(buffer: &mut [u8], placed: u64, count: u64, id: BuildId, dependency: BuildId)
    requires { length buffer.old ≡ summary_size }
    ensures { buffer.new ≡ summary_of placed count id dependency }
{
    words::le::write(buffer, 0, 4, placed);
    words::le::write(buffer, 4, 4, count);
    words::le::write(buffer, 8, 4, id.length as u64);
    words::le::write(buffer, 12, 4, dependency.length as u64);
    let id_bytes = id.bytes;
    write_id(buffer, 16, &id_bytes);
    let dependency_bytes = dependency.bytes;
    write_id(buffer, 16 + Payload::ID_MAX, &dependency_bytes);
}
