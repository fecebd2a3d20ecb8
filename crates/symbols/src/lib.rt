// The symbol list of document 01: valid or refused, and lookup by name. Any bytes get an answer, and the list is never copied.
#![tactic(auto)]

ghost use Rattle.std.specs.Prelude.{◌≡◌, [], ◌+◌, ◌≤◌, length};
ghost use Rattle.records.specs.Verdict.{must};
ghost use Rattle.records.specs.declared.refusal.Place.TheVariants.{Nowhere};
ghost use Rattle.words.specs.Order.{is_less, is_same, less};
ghost use Rattle.symbols.specs.SymbolList.{whole_at, entry_at, entry_if, entries_from, found_if, find_from, valid, find_of};

use records::refusal::{self, Place, Reason, Refusal};
use std::cmp::Ordering;
use words::bytes;

// The address of a name, where the list has it, and how many entries were compared with the name for it.
#[derive(Clone, Copy)]
pub struct Search {
    pub found: Option<u64>,
    pub compared: usize,
}

// The longest name of a list.
pub const NAME_MAX: usize = 127;

// How many bytes the name of the entry at `at` has, where the entry's bytes are all there.
fn whole_at(list: &[u8], at: usize) -> Option<usize>
    ensures { result ≡ entry_if (whole_at list.now at) list.now at }
{
    if list.len() < 9 {
        return None;
    }
    if list.len() - 9 < at {
        return None;
    }
    let name_length = list[at + 8] as usize;
    if list.len() - 9 - at < name_length {
        return None;
    }
    Some(name_length)
}

// The same, where its name is one too.
fn entry_at(list: &[u8], at: usize) -> Option<usize>
    ensures { result ≡ entry_if (entry_at list.now at) list.now at }
{
    let name_length = whole_at(list, at)?;
    if name_length < 1 {
        return None;
    }
    if NAME_MAX < name_length {
        return None;
    }
    let start = at + 9;
    let end = start + name_length;
    if bytes::find_zero(&list[start..end], 0).is_some() {
        return None;
    }
    Some(name_length)
}

// Whether a name that stands so to another is smaller.
fn smaller(order: Ordering) -> bool
    ensures { result ≡ is_less order }
{
    match order {
        Ordering::Less => true,
        Ordering::Equal => false,
        Ordering::Greater => false,
    }
}

// Whether the name `b` may stand after the name `a`.
fn rises(a: &[u8], b: &[u8]) -> bool
    ensures { result ≡ less a.now b.now }
{
    let comparison = bytes::compare(a, b);
    let order = comparison.order;
    smaller(order)
}

// Whether `count` entries follow the head, their names rising, and nothing after them.
fn entries_rise(list: &[u8], count: usize) -> bool
    ensures { result ≡ entries_from list.now count 7 [] }
{
    let mut last_start = 0;
    let mut last_end = 0;
    let mut at = 7;
    for _ in 0..count {
        let Some(name_length) = entry_at(list, at) else {
            return false;
        };
        let start = at + 9;
        let end = start + name_length;
        if !rises(&list[last_start..last_end], &list[start..end]) {
            return false;
        }
        last_start = start;
        last_end = end;
        at = end;
    }
    at == list.len()
}

// Whether the bytes are a symbol list: one pass.
pub fn is_valid(list: &[u8]) -> bool
    ensures { result ≡ valid list.now }
{
    if list.len() < 7 {
        return false;
    }
    if words::be::read(list, 0, 4) + 4 != list.len() as u64 {
        return false;
    }
    if list[4] != 1 {
        return false;
    }
    let count = words::be::read(list, 5, 2) as usize;
    entries_rise(list, count)
}

// The same as a verdict: a list that is not valid is refused with 22, nowhere.
pub fn check(list: &[u8]) -> Result<(), Refusal>
    ensures { result ≡ must (valid list.now) 22 Nowhere }
{
    if is_valid(list) {
        return Ok(());
    }
    refusal::refused(Reason::Invalid, Place::Nowhere)
}

// The address that the list gives to `name`, searched up to the first entry that is not smaller.
pub fn find(list: &[u8], name: &[u8]) -> Search
    ensures { result ≡ find_of list.now name.now }
{
    if list.len() < 7 {
        return Search {
            found: None,
            compared: 0,
        };
    }
    let count = words::be::read(list, 5, 2) as usize;
    find_from(list, name, count)
}

// The same among the first `count` entries. Each is compared with the name once.
fn find_from(list: &[u8], name: &[u8], count: usize) -> Search
    ensures { result ≡ find_from list.now name.now count 7 }
{
    let mut at = 7;
    for compared in 0..count {
        let Some(name_length) = whole_at(list, at) else {
            return Search {
                found: None,
                compared,
            };
        };
        let start = at + 9;
        let end = start + name_length;
        let comparison = bytes::compare(&list[start..end], name);
        let order = comparison.order;
        if !smaller(order) {
            return Search {
                found: found_at(list, at, order),
                compared: compared + 1,
            };
        }
        at = end;
    }
    Search {
        found: None,
        compared: count,
    }
}

// What the entry at `at` gives, whose name stands so to the name sought: its address, where the two are the same.
fn found_at(list: &[u8], at: usize, order: Ordering) -> Option<u64>
    requires { at + 8 ≤ length list.now }
    ensures { result ≡ found_if (is_same order) list.now at }
{
    match order {
        Ordering::Less => None,
        Ordering::Equal => Some(words::be::read(list, at, 8)),
        Ordering::Greater => None,
    }
}
