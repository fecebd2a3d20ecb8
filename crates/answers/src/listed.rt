// The answer of list: a head line, and one line per payload.
ghost use Rattle.std.specs.Prelude.{◌≡◌, ◌++◌, ◌+◌, ◌-◌, ◌*◌, ◌≤◌, min, length, take, IfOk};
ghost use Rattle.words.specs.Number.{le_at};
ghost use Rattle.words.specs.Splice.{part};
ghost use Rattle.records.specs.Limits.{name_max};
ghost use Rattle.memory.specs.Memory.{slot_count};
ghost use Rattle.listing.specs.List.{buffers, listing};
ghost use Rattle.answers.specs.Answers.{head_line, entry_line, entry_lines, list_lines};
ghost use Rattle.answers.specs.Written.{written, writing, line_room};

use super::{lines, numbers, pieces};
use listing::Listed;
use records::payload::Payload;
use records::refusal::Refusal;

fn head(out: &mut [u8], at: usize, version: u32, count: u32) -> usize
    requires { at + line_room ≤ length out.old }
    ensures { written out.new result ≡ writing out.old at (head_line version count) }
{
    let first = pieces::text(out, at, b"version ");
    let second = numbers::decimal(out, first, version as u64);
    let third = pieces::text(out, second, b" count ");
    let fourth = numbers::decimal(out, third, count as u64);
    pieces::byte(out, fourth, b'\n')
}

// How many bytes of an entry's room for a name are the name, where this length counts its zero.
fn shown(len: usize) -> usize
    ensures { result ≡ min (len - 1) name_max }
{
    if len == 0 {
        return 0;
    }
    if Payload::NAME_MAX < len - 1 {
        return Payload::NAME_MAX;
    }
    len - 1
}

// The name of entry `j`, without its zero.
fn name(out: &mut [u8], at: usize, j: usize, names: &[u8], lengths: &[u8]) -> usize
    requires { (at + name_max ≤ length out.old) × (name_max * (j + 1) ≤ length names.now) × (4 * (j + 1) ≤ length lengths.now) }
    ensures { written out.new result ≡ writing out.old at
        (take (le_at 4 lengths.now (4 * j) - 1) (part names.now (name_max * j) name_max)) }
{
    let len = words::le::read(lengths, 4 * j, 4);
    let n = shown(len as usize);
    let start = Payload::NAME_MAX * j;
    let end = start + n;
    pieces::text(out, at, &names[start..end])
}

fn entry(
    out: &mut [u8],
    at: usize,
    j: usize,
    statuses: &[u8],
    names: &[u8],
    lengths: &[u8],
) -> usize
    requires { (at + line_room ≤ length out.old) × (8 * (j + 1) ≤ length statuses.now)
        × (name_max * (j + 1) ≤ length names.now) × (4 * (j + 1) ≤ length lengths.now) }
    ensures { written out.new result ≡ writing out.old at
        (entry_line (buffers statuses.now names.now lengths.now) j) }
{
    let first = name(out, at, j, names, lengths);
    let space = pieces::byte(out, first, b' ');
    let status = words::le::read(statuses, 8 * j, 4);
    let result = words::le::read(statuses, 8 * j + 4, 4);
    lines::status(out, space, status as u32, result as u32)
}

// The lines of the first `n` entries.
fn entries(
    out: &mut [u8],
    at: usize,
    n: usize,
    statuses: &[u8],
    names: &[u8],
    lengths: &[u8],
) -> usize
    requires { (at + line_room * n ≤ length out.old) × (8 * n ≤ length statuses.now)
        × (name_max * n ≤ length names.now) × (4 * n ≤ length lengths.now) }
    ensures { written out.new result ≡ writing out.old at
        (entry_lines (buffers statuses.now names.now lengths.now) n) }
{
    let mut end = at;
    for j in 0..n {
        end = entry(out, end, j, statuses, names, lengths);
    }
    end
}

// The head line, and the lines of `count` entries behind it.
fn accepted(
    out: &mut [u8],
    at: usize,
    version: u32,
    count: u32,
    statuses: &[u8],
    names: &[u8],
    lengths: &[u8],
) -> usize
    requires { (at + line_room * (1 + count) ≤ length out.old) × (8 * count ≤ length statuses.now)
        × (name_max * count ≤ length names.now) × (4 * count ≤ length lengths.now) }
    ensures { written out.new result ≡ writing out.old at
        (head_line version count ++ entry_lines (buffers statuses.now names.now lengths.now) count) }
{
    let end = head(out, at, version, count);
    entries(out, end, count as usize, statuses, names, lengths)
}

// What list answered, with the three buffers that it wrote.
pub fn listed(
    out: &mut [u8],
    at: usize,
    answer: Result<Listed, Refusal>,
    statuses: &[u8],
    names: &[u8],
    lengths: &[u8],
) -> usize
    requires line_room_in_bounds { (at + 9 * line_room ≤ length out.old) × (IfOk answer (λ x. x.written ≤ slot_count)) }
    requires slot_count_in_bounds { (8 * slot_count ≤ length statuses.now) × (name_max * slot_count ≤ length names.now) × (4 * slot_count ≤ length lengths.now) }
    ensures { written out.new result ≡ writing out.old at
        (list_lines (listing answer (buffers statuses.now names.now lengths.now))) }
{
    match answer {
        Ok(listed) => accepted(
            out,
            at,
            listed.version,
            listed.written,
            statuses,
            names,
            lengths,
        ),
        Err(r) => lines::refusal(out, at, r),
    }
}
