// Byte strings: copy, fill, equality, order, and the zero that ends a name.
ghost use Rattle.std.specs.Prelude.{◌≡◌, ◌+◌, ◌≤◌, length, replicate};
ghost use Rattle.words.specs.Splice.{splice};
ghost use Rattle.words.specs.Order.{equal, number_order, comparison, all_zero};
ghost use Rattle.words.specs.Name.{zero_from};

use std::cmp::{Ordering, min};

// How one stands to the other, and how many bytes of each were compared for it.
#[derive(Clone, Copy)]
pub struct Comparison {
    pub order: Ordering,
    pub compared: usize,
}

// The bytes of `new` over those of `s` from `at` on. A loop, since `copy_from_slice` may call memmove, which a host need not have.
pub fn copy(s: &mut [u8], at: usize, new: &[u8])
    requires { at + length new.now ≤ length s.old }
    ensures { s.new ≡ splice s.old at new.now }
{
    for i in 0..new.len() {
        s[at + i] = new[i];
    }
}

// n bytes `b` over those of `s` from `at` on.
pub fn fill(s: &mut [u8], at: usize, n: usize, b: u8)
    requires { at + n ≤ length s.old }
    ensures { s.new ≡ splice s.old at (replicate n b) }
{
    s[at..at + n].fill(b);
}

// Whether two byte strings have the same length and bytes. A loop, since `==` is a call that takes longer on short ones.
pub fn same(a: &[u8], b: &[u8]) -> bool
    ensures { result ≡ equal a.now b.now }
{
    if a.len() != b.len() {
        return false;
    }
    for i in 0..a.len() {
        if a[i] != b[i] {
            return false;
        }
    }
    true
}

// How one number stands to another.
fn number_order(x: usize, y: usize) -> Ordering
    ensures { result ≡ number_order x y }
{
    if x < y {
        return Ordering::Less;
    }
    if y < x {
        return Ordering::Greater;
    }
    Ordering::Equal
}

// How `a` stands to `b`, bytewise; a proper beginning is less. No byte after the first difference is looked at.
pub fn compare(a: &[u8], b: &[u8]) -> Comparison
    ensures { result ≡ comparison a.now b.now }
{
    let shorter = min(a.len(), b.len());
    for i in 0..shorter {
        let x = a[i];
        let y = b[i];
        if x != y {
            return Comparison {
                order: number_order(x as usize, y as usize),
                compared: i + 1,
            };
        }
    }
    Comparison {
        order: number_order(a.len(), b.len()),
        compared: shorter,
    }
}

// The first zero byte of `s` at or after `from`.
pub fn find_zero(s: &[u8], from: usize) -> Option<usize>
    ensures { result ≡ zero_from s.now from }
{
    for i in from..s.len() {
        if s[i] == 0 {
            return Some(i);
        }
    }
    None
}

// Whether every byte of `s` is zero.
pub fn all_zero(s: &[u8]) -> bool
    ensures { result ≡ all_zero s.now }
{
    for b in s {
        if *b != 0 {
            return false;
        }
    }
    true
}
