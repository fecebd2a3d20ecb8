// All relocations of a payload, by section index and then entry, over the slot's bytes.
ghost use Rattle.std.specs.Prelude.{◌≡◌, ◌≤◌, length, Ok};
ghost use Rattle.records.specs.Limits.{placed_max, file_max};
ghost use Rattle.machine.specs.Host.{host_machine};
ghost use Rattle.placement.specs.Placement.{layout_of};
ghost use Rattle.linking.specs.Kept.{Kept};
ghost use Rattle.linking.specs.Linking.{Linking};
ghost use Rattle.reader.specs.Entries.{relocation_count};
ghost use Rattle.relocation.specs.Relocating.{
  Linkable,
  Given,
  AreaFits,
  linking_of,
  relocated,
  FieldFits,
  store_in,
  target_of,
  is_made_in,
  relocate_entries,
  relocate_all,
};

use super::fields::{self, Area, Store};
use kinds::Kind;
use linking::kept::{self, Cell};
use machine::host::Host;
use object::sections::{self, SectionEntry};
use payload::read::Reading;
use placement::Layout;
use reader::cursor::Cursor;
use records::refusal::{self, Place, Refusal};

// What is to be stored, if anything, over the slot's bytes.
fn store_field(image: &mut [u8], stored: Option<Store>)
    requires { FieldFits (Ok stored) (length image.old) }
    ensures { image.new ≡ store_in image.old (Ok stored) }
{
    if let Some(s) = stored {
        s.field.store(image, s.at as usize, s.value);
    }
}

// The entries of a relocation section, in order.
fn relocate_entries(
    image: &mut [u8],
    cells: &mut [Cell],
    entries: &[u8],
    strings: &[u8],
    list: &[u8],
    host: Host,
    area: Area,
) -> Result<(), Refusal>
    requires image_len { (length image.old ≡ placed_max) × AreaFits area × (length entries.now ≤ file_max) }
    requires given { (l : Linking) × Given l host cells.old strings.now list.now }
    ensures { (l : Linking) → Given l host cells.old strings.now list.now →
        (relocated result image.new ≡ relocate_entries (host_machine host) l area entries.now 0
        (relocation_count entries.now) image.old) × Kept l cells.new }
{
    let mut cursor = Cursor::start();
    loop {
        let e = cursor.entry;
        let Some((r, next)) = reader::next_entry(entries, e) else {
            return Ok(());
        };
        match fields::field_of(cells, strings, list, host, area, r) {
            Ok(stored) => store_field(image, stored),
            Err(reason) => {
                let number = e as u16;
                return refusal::refused(reason, Place::Entry(area.section, number));
            }
        }
        cursor = next;
    }
}

// The section that a relocation section is for; 0 for any other section.
fn target_of(s: SectionEntry) -> usize
    ensures { result ≡ target_of s }
{
    if s.kind != Kind::Relocations {
        return 0;
    }
    s.header.sh_info as usize
}

// Whether the section's relocations are made in `target`: those of an ignored target are ignored too.
fn is_relocating(s: SectionEntry, target: SectionEntry) -> bool
    ensures { result ≡ is_made_in s target }
{
    s.kind == Kind::Relocations && target.kind != Kind::Ignored
}

// All relocations, by section index, up to the first that is refused.
pub fn relocate(
    image: &mut [u8],
    file: &[u8],
    list: &[u8],
    host: Host,
    reading: Reading,
    layout: Layout,
) -> Result<(), Refusal>
    requires { Linkable (length image.old) file.now reading ×
        (layout ≡ layout_of reading.sections reading.count) }
    ensures { relocated result image.new ≡ relocate_all (host_machine host)
        (linking_of host file.now reading list.now) file.now image.old }
{
    let count = reading.count;
    let symbols = reading.symbols;
    let symbol_entry = reading.sections[symbols];
    let symbol_header = symbol_entry.header;
    let link = symbol_header.sh_link as usize;
    let string_entry = reading.sections[link];
    let strings = sections::contents_of(file, string_entry.header);
    let mut cells = [Cell::Known(0); Cell::SYMBOLS_MAX];
    kept::read_symbols(
        &mut cells,
        host.slot,
        layout,
        sections::contents_of(file, symbol_header),
    );
    for i in 0..count {
        let one = reading.sections[i];
        let target = target_of(one);
        let made_in = reading.sections[target];
        if is_relocating(one, made_in) {
            let section = i as u16;
            let start = layout.offsets[target];
            let made_header = made_in.header;
            let area = Area {
                section,
                start,
                size: made_header.sh_size,
            };
            let entries = sections::contents_of(file, one.header);
            let v = relocate_entries(image, &mut cells, entries, strings, list, host, area);
            if let Err(_) = v {
                return v;
            }
        }
    }
    Ok(())
}
