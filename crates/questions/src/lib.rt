// Get, list and the top build_id over the records buffer. No function asks anything of its caller.
#![tactic(auto)]

ghost use Rattle.std.specs.Prelude.{◌≡◌, ◌*◌, length, map};
ghost use Rattle.words.specs.Number.{le_bytes};
ghost use Rattle.queries.specs.Get.{get_of};
ghost use Rattle.listing.specs.List.{buffers};
ghost use Rattle.state_bytes.specs.Fields.{chained};
ghost use Rattle.state_bytes.specs.Layout.{records_size};
ghost use Rattle.state_bytes.specs.Stored.{state_in};
ghost use Rattle.questions.specs.Questions.{asked, get_asked, list_asking, list_asked, top_asked, right_buffers};

use in_place::{find, range};
use queries::get::Got;
use queries::{get, top_id};
use records::name;
use records::refusal::{self, Place, Reason, Refusal};
use state_bytes::{buffer, parts};

// The bytes of the out buffers.
const GET_SIZE: usize = 8;

const LIST_SIZE: usize = 12;

const TOP_SIZE: usize = 12;

// Whether the out buffer has its size and the records are a state's.
fn right_buffers(records: &[u8], out: usize, size: usize) -> bool
    ensures { result ≡ right_buffers records.now out size }
{
    if out != size {
        return false;
    }
    buffer::is_state(records)
}

// The numbers, 4 bytes each, one behind the other.
fn write_numbers(out: &mut [u8], numbers: &[u32])
    requires { length out.old ≡ 4 * length numbers.now }
    ensures { out.new ≡ chained (map (le_bytes 4) numbers.now) }
{
    for (i, number) in numbers.iter().enumerate() {
        words::le::write(out, 4 * i, 4, *number as u64);
    }
}

// The payload of this name, found in the records.
fn get_in(records: &[u8], name: &[u8]) -> Result<Got, Refusal>
    requires { length records.now ≡ records_size }
    ensures { result ≡ get_of (state_in records.now) name.now }
{
    if !range::in_range(records) {
        return refusal::refused(Reason::Invalid, Place::Nowhere);
    }
    if !name::is_name(name) {
        return refusal::refused(Reason::Invalid, Place::Nowhere);
    }
    let Some(i) = find::with_name(records, name) else {
        return refusal::refused(Reason::NotLoaded, Place::Nowhere);
    };
    Ok(get::answer(parts::payload(records, i)))
}

// Status and last result of the payload of this name.
pub fn get(records: &[u8], name: &[u8], out: &mut [u8]) -> u64
    ensures { asked result out.new ≡ get_asked records.now name.now out.old }
{
    if !right_buffers(records, out.len(), GET_SIZE) {
        return Refusal::new(Reason::Invalid, Place::Nowhere).code();
    }
    match get_in(records, name) {
        Ok(got) => {
            write_numbers(out, &[got.status, got.result]);
            0
        }
        Err(r) => r.code(),
    }
}

// The list of payloads from `idx` on, at most `nr`.
pub fn list(
    records: &[u8],
    idx: u32,
    nr: u32,
    statuses: &mut [u8],
    names: &mut [u8],
    lengths: &mut [u8],
    out: &mut [u8],
) -> u64
    ensures { list_asking (asked result out.new) (buffers statuses.new names.new lengths.new)
        ≡ list_asked records.now idx nr
        (buffers statuses.old names.old lengths.old) out.old }
{
    if !right_buffers(records, out.len(), LIST_SIZE) {
        return Refusal::new(Reason::Invalid, Place::Nowhere).code();
    }
    match listing::list(buffer::load(records), idx, nr, statuses, names, lengths) {
        Ok(listed) => {
            write_numbers(out, &[listed.written, listed.left, listed.version]);
            0
        }
        Err(r) => r.code(),
    }
}

// Where the top build_id stands: in which buffer, from where on, and its length.
pub fn top_build_id(records: &[u8], build_id: &[u8], ids: &[u8], out: &mut [u8]) -> u64
    ensures { asked result out.new
        ≡ top_asked records.now build_id.now ids.now out.old }
{
    if !right_buffers(records, out.len(), TOP_SIZE) {
        return Refusal::new(Reason::Invalid, Place::Nowhere).code();
    }
    let state = buffer::load(records);
    if !top_id::sizes_ok(state, build_id.len(), ids.len()) {
        return Refusal::new(Reason::Invalid, Place::Nowhere).code();
    }
    let place = top_id::top_place(state);
    write_numbers(out, &[place.buffer, place.offset, place.length]);
    0
}
