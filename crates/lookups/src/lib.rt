// A lookup and a comparison with their counts, over C. The tests and the bench link it; it is no part of the library that a hypervisor links.
#![tactic(auto)]

ghost use Rattle.std.specs.Prelude.{◌≡◌};
ghost use Rattle.words.specs.Order.{order_of, compared_bytes};
ghost use Rattle.symbols.specs.SymbolList.{lookup, compared_entries};
ghost use Rattle.lookups.specs.Numbers.{found_number, found_address, order_number};

use std::cmp::Ordering;
use words::bytes;

// Looks a name up in a symbol list: 0 and its address, or 3 and no address, and how many entries were compared.
#[unsafe(no_mangle)]
pub extern "C" fn lookups_find(
    list: &[u8],
    name: &[u8],
    address: &mut u64,
    compared: &mut u64,
) -> u64
    ensures value { result ≡ found_number (lookup list.now name.now) }
    ensures address_after { address.new ≡ found_address (lookup list.now name.now) }
    ensures compared_after { compared.new ≡ compared_entries list.now name.now }
{
    let search = symbols::find(list, name);
    *compared = search.compared as u64;
    let found = search.found;
    match found {
        Some(a) => {
            *address = a;
            0
        }
        None => {
            *address = 0;
            3
        }
    }
}

// Compares two byte strings: 0, 1 or 2 where the first is less, the same or greater, and how many bytes were compared.
#[unsafe(no_mangle)]
pub extern "C" fn lookups_compare(a: &[u8], b: &[u8], compared: &mut u64) -> u64
    ensures value { result ≡ order_number (order_of a.now b.now) }
    ensures compared_after { compared.new ≡ compared_bytes a.now b.now }
{
    let comparison = bytes::compare(a, b);
    *compared = comparison.compared as u64;
    let order = comparison.order;
    match order {
        Ordering::Less => 0,
        Ordering::Equal => 1,
        Ordering::Greater => 2,
    }
}
