// Decimal numbers, read.
ghost use Rattle.std.specs.Prelude.{◌≡◌};
ghost use Rattle.script.specs.Decimal.{number_of};
ghost use Rattle.script.specs.Fields.{field_of};

use super::fields;

fn wide(b: u8) -> u64
    ensures { result ≡ b }
{
    b as u64
}

// The number of the digits `s`, where it is at most `most`.
pub(crate) fn read(s: &[u8], most: u64) -> Option<u64>
    ensures { result ≡ number_of most s.now }
{
    if s.len() == 0 {
        return None;
    }
    let mut v: u64 = 0;
    for digit in s {
        let b = wide(*digit);
        if b < 48 {
            return None;
        }
        if 57 < b {
            return None;
        }
        if most / 10 < v {
            return None;
        }
        let tens = v * 10;
        let d = b - 48;
        if most - tens < d {
            return None;
        }
        v = tens + d;
    }
    Some(v)
}

// The number in field `k` of the line.
pub(crate) fn read_field(line: &[u8], k: usize, most: u64) -> Option<u64>
    ensures { result ≡ number_of most (field_of line.now k) }
{
    let span = fields::field(line, k);
    let from = span.from;
    let to = span.to;
    read(&line[from..to], most)
}
