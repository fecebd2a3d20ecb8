// Numbers in decimal, written.
ghost use Rattle.std.specs.Prelude.{◌≡◌, ◌+◌, ◌%◌, ◌≤◌, length};
ghost use Rattle.script.specs.Decimal.{digits_up_to, digits_max, decimal};
ghost use Rattle.answers.specs.Answers.{integer};
ghost use Rattle.answers.specs.Written.{written, writing};

use super::pieces;

// The last digit of `n`.
fn digit(n: u64) -> u8
    ensures { result ≡ 48 + n % 10 }
{
    48 + (n % 10) as u8
}

// The digits of `n`, at most `k`.
fn digits(out: &mut [u8], at: usize, k: usize, n: u64) -> usize
    requires { at + k ≤ length out.old }
    ensures { written out.new result ≡ writing out.old at (digits_up_to k n) }
{
    if k == 0 {
        return at;
    }
    if n < 10 {
        return pieces::byte(out, at, digit(n));
    }
    let end = digits(out, at, k - 1, n / 10);
    pieces::byte(out, end, digit(n))
}

pub(crate) fn decimal(out: &mut [u8], at: usize, n: u64) -> usize
    requires { at + digits_max ≤ length out.old }
    ensures { written out.new result ≡ writing out.old at (decimal n) }
{
    digits(out, at, 20, n)
}

// A number of 32 bits, read as signed.
pub(crate) fn integer(out: &mut [u8], at: usize, x: u32) -> usize
    requires { at + digits_max + 1 ≤ length out.old }
    ensures { written out.new result ≡ writing out.old at (integer x) }
{
    if x < 2147483648 {
        return decimal(out, at, x as u64);
    }
    let end = pieces::byte(out, at, b'-');
    decimal(out, end, 4294967296 - x as u64)
}
