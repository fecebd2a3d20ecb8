// A function record, and the old address that it names.
ghost use Rattle.std.specs.Prelude.{◌≡◌, ◌+◌, ◌≤◌, length};
ghost use Rattle.records.specs.Limits.{record_size};
ghost use Rattle.elf.specs.Name.{name_in};
ghost use Rattle.functions.specs.Patching.{patching};
ghost use Rattle.functions.specs.Records.{record_of, old_address_of, named_address};

use machine::host::Host;
use records::refusal::Reason;

#[derive(Clone, Copy)]
pub struct FunctionRecord {
    pub name: u64,
    pub new_addr: u64,
    pub old_addr: u64,
    pub new_size: u64,
    pub old_size: u64,
    pub version: u64,
}

// The record at `at` of the placed bytes.
pub(crate) fn read_record(placed: &[u8], at: usize) -> FunctionRecord
    requires { at + record_size ≤ length placed.now }
    ensures { result ≡ record_of placed.now at }
{
    FunctionRecord {
        name: words::le::read(placed, at, 8),
        new_addr: words::le::read(placed, at + 8, 8),
        old_addr: words::le::read(placed, at + 16, 8),
        new_size: words::le::read(placed, at + 24, 4),
        old_size: words::le::read(placed, at + 28, 4),
        version: words::le::read(placed, at + 32, 1),
    }
}

// The address of the name that begins at `start` of the placed bytes.
fn named_address(placed: &[u8], list: &[u8], start: u64) -> Result<u64, Reason>
    ensures { result ≡ named_address list.now (name_in placed.now start) }
{
    let first = start as usize;
    let Some(end) = elf::name_end(placed, start) else {
        return Err(Reason::Invalid);
    };
    if end - first < 1 {
        return Err(Reason::Invalid);
    }
    if symbols::NAME_MAX < end - first {
        return Err(Reason::Invalid);
    }
    let search = symbols::find(list, &placed[first..end]);
    match search.found {
        Some(a) => Ok(a),
        None => Err(Reason::NotListed),
    }
}

// The old address of a record: given, or that of a listed name.
pub(crate) fn old_address(
    host: Host,
    placed: &[u8],
    list: &[u8],
    f: FunctionRecord,
) -> Result<u64, Reason>
    ensures { result ≡ old_address_of (patching host placed.now list.now) f }
{
    if f.old_addr != 0 {
        return Ok(f.old_addr);
    }
    let name = f.name;
    if name < host.slot {
        return Err(Reason::Invalid);
    }
    if placed.len() as u64 <= name - host.slot {
        return Err(Reason::Invalid);
    }
    named_address(placed, list, name - host.slot)
}
