// The edit that a function record asks for.
ghost use Rattle.std.specs.Prelude.{◌≡◌, [], ◌+◌, ◌-◌, ◌≤◌, length};
ghost use Rattle.records.specs.Limits.{record_size};
ghost use Rattle.machine.specs.Host.{text_max};
ghost use Rattle.functions.specs.Edits.{lies_in, form_ok, jump_ok, fill_ok, addresses_ok, jump_edit, edit_from, edit_of};
ghost use Rattle.functions.specs.Patching.{patching};

use super::function;
use super::function::FunctionRecord;
use machine::host::Host;
use records::payload::{Edit, EditKind, Payload};
use records::refusal::Reason;

// Whether `size` bytes from `address` on lie among `count` bytes that begin at `start`: nothing wraps.
fn lies_in(start: u64, count: u64, address: u64, size: u64) -> bool
    ensures { result ≡ lies_in start count address size }
{
    if address < start {
        return false;
    }
    words::address::lies_within(address - start, size, count)
}

fn form_ok(placed: &[u8], at: usize, f: FunctionRecord) -> bool
    requires { at + record_size ≤ length placed.now }
    ensures { result ≡ form_ok placed.now at f }
{
    if f.version != 1 {
        return false;
    }
    let start = at + 33;
    let end = at + Payload::RECORD_SIZE;
    words::bytes::all_zero(&placed[start..end])
}

fn jump_ok(host: Host, placed: &[u8], list: &[u8], f: FunctionRecord) -> bool
    ensures { result ≡ jump_ok (patching host placed.now list.now) f }
{
    let processor = host.processor;
    if f.new_size < 1 {
        return false;
    }
    if f.old_size < processor.jump_length() {
        return false;
    }
    lies_in(host.slot, placed.len() as u64, f.new_addr, f.new_size)
}

fn fill_ok(host: Host, f: FunctionRecord) -> bool
    ensures { result ≡ fill_ok (patching host [] []) f }
{
    let processor = host.processor;
    if !processor.is_fill_size(f.new_size) {
        return false;
    }
    f.new_size <= f.old_size
}

fn addresses_ok(host: Host, old: u64, f: FunctionRecord) -> bool
    ensures { result ≡ addresses_ok (patching host [] []) old f }
{
    let processor = host.processor;
    if !processor.is_address(old) {
        return false;
    }
    processor.is_address(f.new_addr)
}

// The jump from the old address to the new code.
fn jump_edit(host: Host, old: u64, f: FunctionRecord) -> Result<Edit, Reason>
    requires { (host.text ≤ old) × (old - host.text ≤ text_max) }
    ensures { result ≡ jump_edit (patching host [] []) old f }
{
    let processor = host.processor;
    let displacement = processor.displacement(old, f.new_addr);
    if !processor.reaches(displacement) {
        return Err(Reason::OutOfRange);
    }
    Ok(Edit {
        offset: (old - host.text) as u32,
        length: processor.jump_length() as u32,
        kind: EditKind::Jump(displacement),
    })
}

// The edit of the record at `at` whose old address is known.
fn edit_from(
    host: Host,
    placed: &[u8],
    list: &[u8],
    at: usize,
    old: u64,
    f: FunctionRecord,
) -> Result<Edit, Reason>
    requires { (at + record_size ≤ length placed.now) × (host.text_length ≤ text_max) }
    ensures { result ≡ edit_from (patching host placed.now list.now) at old f }
{
    let invalid = Err(Reason::Invalid);
    if !form_ok(placed, at, f) {
        return invalid;
    }
    if !lies_in(host.text, host.text_length, old, f.old_size) {
        return invalid;
    }
    if !addresses_ok(host, old, f) {
        return invalid;
    }
    if f.new_addr == 0 {
        if !fill_ok(host, f) {
            return invalid;
        }
        return Ok(Edit {
            offset: (old - host.text) as u32,
            length: f.new_size as u32,
            kind: EditKind::Fill,
        });
    }
    if !jump_ok(host, placed, list, f) {
        return invalid;
    }
    jump_edit(host, old, f)
}

// The edit of the record at `at` of the placed bytes.
pub(crate) fn edit_of(host: Host, placed: &[u8], list: &[u8], at: usize) -> Result<Edit, Reason>
    requires { (at + record_size ≤ length placed.now) × (host.text_length ≤ text_max) }
    ensures { result ≡ edit_of (patching host placed.now list.now) at }
{
    let f = function::read_record(placed, at);
    let old = function::old_address(host, placed, list, f)?;
    edit_from(host, placed, list, at, old, f)
}
