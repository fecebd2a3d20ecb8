// What one relocation stores, and where in the slot.
ghost use Rattle.std.specs.Prelude.{◌≡◌};
ghost use Rattle.machine.specs.Host.{host_machine};
ghost use Rattle.linking.specs.Kept.{Kept};
ghost use Rattle.linking.specs.Linking.{Linking};
ghost use Rattle.relocation.specs.Relocating.{stored_field, field_of, AreaFits, Given};

use elf::Relocation;
use linking::kept::{self, Cell};
use machine::fields::FieldType;
use machine::host::Host;
use machine::processor::RelocationType;
use records::refusal::Reason;

// A relocation section's number, and where the section that its relocations are made in stands in the slot, with its size.
#[derive(Clone, Copy)]
pub struct Area {
    pub section: u16,
    pub start: u64,
    pub size: u64,
}

// What is stored in a field of the slot: at this offset, of this type, this value.
#[derive(Clone, Copy)]
pub struct Store {
    pub at: u64,
    pub field: FieldType,
    pub value: u64,
}

// The field at `at` of the slot with a value that is known, where it can take it.
fn stored_field(f: FieldType, at: u64, value: u64) -> Result<Option<Store>, Reason>
    ensures { result ≡ stored_field f at value }
{
    f.check(value)?;
    Ok(Some(Store {
        at,
        field: f,
        value,
    }))
}

// What one relocation stores, if anything: type, field, symbol, range.
pub fn field_of(
    cells: &mut [Cell],
    strings: &[u8],
    list: &[u8],
    host: Host,
    area: Area,
    r: Relocation,
) -> Result<Option<Store>, Reason>
    requires { AreaFits area × ((l : Linking) × Given l host cells.old strings.now list.now) }
    ensures { (l : Linking) → Given l host cells.old strings.now list.now →
        (result ≡ field_of (host_machine host) l area r) × Kept l cells.new }
{
    let processor = host.processor;
    let asked = processor.relocation_type(r.r_type);
    let f = match asked {
        RelocationType::Nothing => return Ok(None),
        RelocationType::Unknown => return Err(Reason::Unsupported),
        RelocationType::Stores(f) => f,
    };
    if !words::address::lies_within(r.r_offset, f.width(), area.size) {
        return Err(Reason::Invalid);
    }
    let place = words::address::add(words::address::add(host.slot, area.start), r.r_offset);
    if !f.is_aligned(place) {
        return Err(Reason::Invalid);
    }
    let s = kept::value_of(cells, strings, list, r.r_symbol)?;
    stored_field(f, area.start + r.r_offset, f.value(s, r.r_addend, place))
}
