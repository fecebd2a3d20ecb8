// Addresses: sums and differences modulo 2^64, and whether a difference, read as signed, fits fewer bits.
ghost use Rattle.std.specs.Prelude.{◌≡◌, ◌+◌, ◌≤◌, nat_le};
ghost use Rattle.words.specs.Address.{wrapping_sum, wrapping_difference, signed, fits};

// a + b modulo 2^64
pub fn add(a: u64, b: u64) -> u64
    ensures { result ≡ wrapping_sum a b }
{
    std::num::wrapping_add_u64(a, b)
}

// a - b modulo 2^64
pub fn subtract(a: u64, b: u64) -> u64
    ensures { result ≡ wrapping_difference a b }
{
    std::num::wrapping_sub_u64(a, b)
}

// Whether `d`, read as signed 64-bit, lies in the range of a signed number of `bits` bits.
pub fn fits_signed(d: u64, bits: u32) -> bool
    requires { (1 ≤ bits) × (bits ≤ 64) }
    ensures { result ≡ fits bits (signed 64 d) }
{
    let half: u64 = 1 << (bits - 1);
    if d < half {
        return true;
    }
    if u64::MAX - half < d {
        return true;
    }
    false
}

// Whether the `n` numbers from `at` on end at `end` or before, by ordinary sums: nothing wraps.
pub fn lies_within(at: u64, n: u64, end: u64) -> bool
    ensures { result ≡ nat_le (at + n) end }
{
    if end < n {
        return false;
    }
    if end - n < at {
        return false;
    }
    true
}
