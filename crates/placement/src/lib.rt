// Placement: where each placed section stands in the slot, and the slot's bytes before relocation.
#![tactic(auto)]

ghost use Rattle.std.specs.Prelude.{◌≡◌, ◌+◌, ◌≤◌, length};
ghost use Rattle.records.specs.Limits.{sections_max, placed_max};
ghost use Rattle.placement.specs.Placement.{
  is_placed,
  next_multiple,
  step_of,
  bound_for,
  has_contents,
  no_bytes,
  placed_slot,
  refused_at,
  placement_of,
};

use kinds::Kind;
use object::sections::{self, SectionEntry};
use records::payload::Payload;
use records::refusal::{self, Place, Reason, Refusal};

// Where the sections stand.
#[derive(Clone, Copy)]
pub struct Layout {
    // Each section's offset in the slot; 0 for those not placed.
    pub offsets: [u64; Payload::SECTIONS_MAX],
    // What the value of a symbol in the section must lie below; 0 for those not placed.
    pub bounds: [u64; Payload::SECTIONS_MAX],
}

// What placement decides of a payload that fits.
#[derive(Clone, Copy)]
pub struct Placement {
    pub layout: Layout,
    // How many bytes are placed.
    pub placed: u64,
}

// Whether the section goes into the slot.
#[tactic(auto, unfolding(crate::specs::Placement::is_placed))]
pub fn is_placed(s: SectionEntry) -> bool
    ensures { result ≡ is_placed s }
{
    match s.kind {
        Kind::Placed | Kind::Records => true,
        Kind::Depends | Kind::BuildId => s.header.sh_flags & 2 == 2,
        _ => false,
    }
}

// The next multiple of `align` from `at` on; 0 counts as 1.
fn next_multiple(at: u64, align: u64) -> u64
    requires { at ≤ placed_max }
    ensures { result ≡ next_multiple at align }
{
    if align == 0 {
        return at;
    }
    let past = at % align;
    if past == 0 {
        return at;
    }
    at + (align - past)
}

// Where the next section starts, if `end` bytes are placed already, and where what is placed ends after it; nothing where it does not fit.
fn place_one(end: u64, s: SectionEntry) -> Option<(u64, u64)>
    requires { end ≤ placed_max }
    ensures { result ≡ step_of end s }
{
    if !is_placed(s) {
        return Some((0, end));
    }
    let h = s.header;
    let start = next_multiple(end, h.sh_addralign);
    if !words::address::lies_within(start, h.sh_size, Payload::PLACED_MAX as u64) {
        return None;
    }
    Some((start, start + h.sh_size))
}

// Whether a section's bytes are copied from the file: placed, and not of type 8.
fn has_contents(s: SectionEntry) -> bool
    ensures { result ≡ has_contents s }
{
    if !is_placed(s) {
        return false;
    }
    let h = s.header;
    h.sh_type != 8
}

// What a symbol's value must lie below, in a section that fits the slot.
fn bound_for(s: SectionEntry) -> u64
    requires { bound_for s ≤ placed_max + 1 }
    ensures { result ≡ bound_for s }
{
    if !is_placed(s) {
        return 0;
    }
    let h = s.header;
    h.sh_size + 1
}

// Section i passes the slot's end; the slot's bytes are cleared.
fn refuse_at(image: &mut [u8], i: u16) -> Result<Placement, Refusal>
    requires { length image.old ≡ placed_max }
    ensures { placed_slot result image.new ≡ refused_at i }
{
    words::bytes::fill(image, 0, Payload::PLACED_MAX, 0);
    refusal::refused(Reason::NoRoom, Place::Section(i))
}

// The placed sections in index order, each at the next multiple of its alignment. `image` is the slot's bytes, all zero.
pub fn place(
    image: &mut [u8],
    file: &[u8],
    table: [SectionEntry; Payload::SECTIONS_MAX],
    count: usize,
) -> Result<Placement, Refusal>
    requires { (count ≤ sections_max) × (image.old ≡ no_bytes) }
    ensures { placed_slot result image.new ≡ placement_of file.now table count }
{
    let mut offsets = [0u64; Payload::SECTIONS_MAX];
    let mut bounds = [0u64; Payload::SECTIONS_MAX];
    let mut end = 0;
    for i in 0..count {
        let one = table[i];
        let Some((start, next)) = place_one(end, one) else {
            return refuse_at(image, i as u16);
        };
        if has_contents(one) {
            let h = one.header;
            words::bytes::copy(image, start as usize, sections::contents_of(file, h));
        }
        offsets[i] = start;
        bounds[i] = bound_for(one);
        end = next;
    }
    let layout = Layout { offsets, bounds };
    Ok(Placement {
        layout,
        placed: end,
    })
}
