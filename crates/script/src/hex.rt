// Bytes in lower-case hex, read.
ghost use Rattle.std.specs.Prelude.{◌≡◌, true, ◌+◌, ◌*◌, ◌≤◌, ◌<◌, length, take};
ghost use Rattle.words.specs.Splice.{splice};
ghost use Rattle.script.specs.Hex.{is_hex_digit, hex_value, is_hex, hex_bytes};
ghost use Rattle.script.specs.Fields.{field_of};

use super::fields;

fn is_digit(b: u8) -> bool
    ensures { result ≡ is_hex_digit b }
{
    if b < b'0' {
        return false;
    }
    if b <= b'9' {
        return true;
    }
    if b < b'a' {
        return false;
    }
    b <= b'f'
}

fn digit_value(b: u8) -> u8
    requires { is_hex_digit b ≡ true }
    ensures { (result ≡ hex_value b) × (result < 16) }
{
    if b <= b'9' {
        return b - b'0';
    }
    b - 87
}

// Whether `s` is hex: digits alone, at least two, and an even number of them.
pub fn is_hex(s: &[u8]) -> bool
    ensures { result ≡ is_hex s.now }
{
    if s.len() == 0 {
        return false;
    }
    if s.len() % 2 != 0 {
        return false;
    }
    s.iter().all(|b| is_digit(*b))
}

// Whether field `k` of the line is hex.
pub(crate) fn is_hex_field(line: &[u8], k: usize) -> bool
    ensures { result ≡ is_hex (field_of line.now k) }
{
    let span = fields::field(line, k);
    let from = span.from;
    let to = span.to;
    is_hex(&line[from..to])
}

// The first `n` bytes that the hex `s` stands for, over those of `out` from `at` on.
pub fn decode(s: &[u8], n: usize, out: &mut [u8], at: usize)
    requires { (is_hex s.now ≡ true) × (2 * n ≤ length s.now) × (at + n ≤ length out.old) }
    ensures { out.new ≡ splice out.old at (take n (hex_bytes s.now)) }
{
    for i in 0..n {
        let high = digit_value(s[2 * i]);
        let low = digit_value(s[2 * i + 1]);
        out[at + i] = 16 * high + low;
    }
}
