// The symbols of a payload, kept in cells while it is relocated: what each symbol is worth, as far as it is known.
ghost use Rattle.std.specs.Prelude.{◌≡◌, ◌≤◌, ◌<◌, length};
ghost use Rattle.records.specs.Limits.{file_max};
ghost use Rattle.linking.specs.Linking.{Linking};
ghost use Rattle.elf.specs.Name.{name_in};
ghost use Rattle.linking.specs.Kept.{symbols_max, cell_value, with_found, Kept, Stands, Sought};
ghost use Rattle.linking.specs.Symbols.{named_value, undefined_value, defined_value, value_by, symbol_value};

use super::values;
use elf::Symbol;
use placement::Layout;
use records::payload::Payload;
use records::refusal::Reason;

// What is known of a symbol: its value; why it has none; or where its name begins, which is to be looked up. That is told for a weak
// symbol and any other by two variants, so a cell takes 16 bytes.
#[derive(Clone, Copy)]
pub enum Cell {
    Known(u64),
    Refused(Reason),
    Named(u64),
    NamedWeak(u64),
}

impl Cell {
    // The symbols in a file of the largest size, rounded up.
    pub const SYMBOLS_MAX: usize = Payload::FILE_MAX / elf::SYMBOL_SIZE + 1;
}

const _: () = prove!(size_of::<Cell>() == 16);

// A symbol of a section: the section's address plus the symbol's value.
fn defined_cell(slot: u64, layout: Layout, s: Symbol) -> Cell
    ensures { (l : Linking) → Stands l slot layout → cell_value l.strings l.list result ≡ defined_value l s }
{
    let home = s.st_shndx as usize;
    if Payload::SECTIONS_MAX <= home {
        return Cell::Refused(Reason::Invalid);
    }
    if layout.bounds[home] <= s.st_value {
        return Cell::Refused(Reason::Invalid);
    }
    let start = words::address::add(slot, layout.offsets[home]);
    Cell::Known(words::address::add(start, s.st_value))
}

// An undefined symbol: where its name begins. Weak binding is 2 in the upper four bits of st_info.
fn undefined_cell(s: Symbol) -> Cell
    ensures { (l : Linking) → cell_value l.strings l.list result ≡ undefined_value l.strings l.list s }
{
    if s.st_info / 16 == 2 {
        return Cell::NamedWeak(s.st_name);
    }
    Cell::Named(s.st_name)
}

// A symbol by its section index.
fn symbol_cell(slot: u64, layout: Layout, s: Symbol) -> Cell
    ensures { (l : Linking) → Stands l slot layout → cell_value l.strings l.list result ≡ value_by l s }
{
    let index = s.st_shndx;
    if index == 0xfff1 {
        return Cell::Known(s.st_value);
    }
    if index == 0 {
        return undefined_cell(s);
    }
    if 0xff00 <= index {
        return Cell::Refused(Reason::Unsupported);
    }
    defined_cell(slot, layout, s)
}

// The symbol with this number.
fn cell_at(slot: u64, layout: Layout, table: &[u8], number: usize) -> Cell
    requires { length table.now ≤ file_max }
    ensures { (l : Linking) → Stands l slot layout → l.symbols ≡ table.now →
        cell_value l.strings l.list result ≡ symbol_value l number }
{
    if number == 0 {
        return Cell::Known(0);
    }
    if table.len() / elf::SYMBOL_SIZE <= number {
        return Cell::Refused(Reason::Invalid);
    }
    symbol_cell(
        slot,
        layout,
        elf::read_symbol(table, elf::SYMBOL_SIZE * number),
    )
}

// The cells of all symbols of a symbol table, none of them looked up.
pub fn read_symbols(cells: &mut [Cell], slot: u64, layout: Layout, table: &[u8])
    requires { (length cells.old ≡ symbols_max) × (length table.now ≤ file_max) }
    ensures { (l : Linking) → Stands l slot layout → l.symbols ≡ table.now → Kept l cells.new }
{
    for i in 0..Cell::SYMBOLS_MAX {
        cells[i] = cell_at(slot, layout, table, i);
    }
}

// A name looked up for the symbol in cell i: the address that is found is kept there.
fn look_up(
    cells: &mut [Cell],
    i: usize,
    strings: &[u8],
    list: &[u8],
    name: u64,
    weak: bool,
) -> Result<u64, Reason>
    requires { i < length cells.old }
    ensures { (result ≡ named_value weak list.now (name_in strings.now name))
        × (cells.new ≡ with_found cells.old i result) }
{
    let found = values::named_value(strings, list, name, weak);
    if let Ok(a) = found {
        cells[i] = Cell::Known(a);
    }
    found
}

// The value of the symbol with this number. A name is looked up once: the address that is found is kept. No file has room for
// a number past the cells.
pub fn value_of(cells: &mut [Cell], strings: &[u8], list: &[u8], number: u64) -> Result<u64, Reason>
    requires { (l : Linking) × Sought l cells.old strings.now list.now }
    ensures { (l : Linking) → Sought l cells.old strings.now list.now →
        (result ≡ symbol_value l number) × Kept l cells.new }
{
    let i = number as usize;
    if Cell::SYMBOLS_MAX <= i {
        return Err(Reason::Invalid);
    }
    let cell = cells[i];
    match cell {
        Cell::Known(value) => Ok(value),
        Cell::Refused(reason) => Err(reason),
        Cell::Named(name) => look_up(cells, i, strings, list, name, false),
        Cell::NamedWeak(name) => look_up(cells, i, strings, list, name, true),
    }
}
