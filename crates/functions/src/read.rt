// All function records of a payload.
ghost use Rattle.std.specs.Prelude.{◌≡◌, ◌+◌, ◌*◌, ◌≤◌, length};
ghost use Rattle.records.specs.Limits.{records_max, record_size};
ghost use Rattle.machine.specs.Host.{text_max};
ghost use Rattle.functions.specs.Functions.{functions_of};
ghost use Rattle.functions.specs.Patching.{patching};

use super::{edits, pairs};
use machine::host::Host;
use records::payload::{Edit, Payload};
use records::refusal::{self, Place, Refusal};

// The edits that the function records ask for.
#[derive(Clone, Copy)]
pub struct Functions {
    pub edits: [Edit; Payload::RECORDS_MAX],
    pub count: usize,
}

// The `count` records from `start` of the placed bytes on, in order, then the pairs.
pub fn read_functions(
    host: Host,
    placed: &[u8],
    list: &[u8],
    start: usize,
    count: usize,
) -> Result<Functions, Refusal>
    requires { (start + record_size * count ≤ length placed.now) × (count ≤ records_max) ×
        (host.text_length ≤ text_max) }
    ensures { result ≡ functions_of (patching host placed.now list.now) start count }
{
    let none = Edit::none();
    let mut table = [none; Payload::RECORDS_MAX];
    for r in 0..count {
        match edits::edit_of(host, placed, list, start + Payload::RECORD_SIZE * r) {
            Ok(e) => table[r] = e,
            Err(reason) => return refusal::refused(reason, Place::Record(r as u16)),
        }
    }
    pairs::check_pairs(table, count)?;
    Ok(Functions {
        edits: table,
        count,
    })
}
