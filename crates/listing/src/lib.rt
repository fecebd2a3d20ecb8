// The list of payloads, in upload order.
#![tactic(auto)]

ghost use Rattle.std.specs.Prelude.{◌≡◌, ◌+◌, ◌*◌, ◌≤◌, length};
ghost use Rattle.words.specs.Splice.{part, splice};
ghost use Rattle.records.specs.Limits.{name_max};
ghost use Rattle.memory.specs.Memory.{slot_count};
ghost use Rattle.state.specs.State.{loaded};
ghost use Rattle.listing.specs.List.{
  status_and_result,
  status_bytes,
  name_bytes,
  length_bytes,
  has_room,
  list_rules_for,
  buffers,
  written_over,
  listing,
  list_of,
};

use memory::config::Config;
use queries::get;
use records::payload::Payload;
use records::refusal::{self, Place, Reason, Refusal};
use state::state::State;

// How many entries were written and how many are left after them, and the version.
#[derive(Clone, Copy)]
pub struct Listed {
    pub written: u32,
    pub left: u32,
    pub version: u32,
}

fn has_room(nr: usize, statuses: usize, names: usize, lengths: usize) -> bool
    requires { nr ≤ slot_count }
    ensures { result ≡ has_room nr statuses names lengths }
{
    if statuses < 8 * nr {
        return false;
    }
    if names < Payload::NAME_MAX * nr {
        return false;
    }
    4 * nr <= lengths
}

// Status and result, as entry `j`.
fn write_status(statuses: &mut [u8], j: usize, status: u32, res: u32)
    requires { 8 * (j + 1) ≤ length statuses.old }
    ensures { statuses.new ≡ splice statuses.old (8 * j) (status_and_result status res) }
{
    words::le::write(statuses, 8 * j, 4, status as u64);
    let word = get::result_word(res);
    words::le::write(statuses, 8 * j + 4, 4, word as u64);
}

// The 128 bytes of a name, as entry `j`.
fn write_name(names: &mut [u8], j: usize, name: &[u8; Payload::NAME_MAX])
    requires { name_max * (j + 1) ≤ length names.old }
    ensures { names.new ≡ splice names.old (name_max * j) name.now }
{
    words::bytes::copy(names, Payload::NAME_MAX * j, name);
}

// Entry `j`: the payload's status and result, name, and name's length.
fn write_entry(
    payload: Payload,
    j: usize,
    statuses: &mut [u8],
    names: &mut [u8],
    lengths: &mut [u8],
)
    requires { (8 * (j + 1) ≤ length statuses.old) × (name_max * (j + 1) ≤ length names.old) × (4 * (j + 1) ≤ length lengths.old) }
    ensures { (statuses.new ≡ splice statuses.old (8 * j) (status_bytes payload))
        × (names.new ≡ splice names.old (name_max * j) (name_bytes payload))
        × (lengths.new ≡ splice lengths.old (4 * j) (length_bytes payload)) }
{
    write_status(statuses, j, payload.status, payload.result);
    write_name(names, j, &payload.name);
    words::le::write(lengths, 4 * j, 4, payload.name_length as u64);
}

// The entries of `n` payloads from place `idx` on.
fn write_entries(
    state: State,
    idx: usize,
    n: usize,
    statuses: &mut [u8],
    names: &mut [u8],
    lengths: &mut [u8],
)
    requires { (idx + n ≤ state.count) × (state.count ≤ slot_count) × (8 * n ≤ length statuses.old)
        × (name_max * n ≤ length names.old) × (4 * n ≤ length lengths.old) }
    ensures { buffers statuses.new names.new lengths.new
        ≡ written_over (part (loaded state) idx n)
        (buffers statuses.old names.old lengths.old) }
{
    for (j, payload) in state.payloads[idx..idx + n].iter().enumerate() {
        write_entry(*payload, j, statuses, names, lengths);
    }
}

// What stands against a list of at most `nr` entries from place `idx` on, in buffers of these sizes.
fn check(
    state: State,
    idx: usize,
    nr: usize,
    statuses: usize,
    names: usize,
    lengths: usize,
) -> Result<(), Refusal>
    ensures { result ≡ list_rules_for state idx nr statuses names lengths }
{
    if !ranges::ranges::in_range(state) {
        return refusal::refused(Reason::Invalid, Place::Nowhere);
    }
    if Config::SLOTS < nr {
        return refusal::refused(Reason::TooMany, Place::Nowhere);
    }
    if state.count < idx {
        return refusal::refused(Reason::Invalid, Place::Nowhere);
    }
    if !has_room(nr, statuses, names, lengths) {
        return refusal::refused(Reason::Invalid, Place::Nowhere);
    }
    Ok(())
}

// The entries from place `idx` on, at most `nr`, over the first bytes of the three buffers.
pub fn list(
    state: State,
    idx: u32,
    nr: u32,
    statuses: &mut [u8],
    names: &mut [u8],
    lengths: &mut [u8],
) -> Result<Listed, Refusal>
    ensures { listing result (buffers statuses.new names.new lengths.new)
        ≡ list_of state idx nr (buffers statuses.old names.old lengths.old) }
{
    let at = idx as usize;
    let most = nr as usize;
    check(state, at, most, statuses.len(), names.len(), lengths.len())?;
    let there = state.count - at;
    let n = most.min(there);
    write_entries(state, at, n, statuses, names, lengths);
    let written = n as u32;
    let left = (there - n) as u32;
    Ok(Listed {
        written,
        left,
        version: state.version,
    })
}
