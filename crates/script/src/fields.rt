// The fields of a line.
ghost use Rattle.std.specs.Prelude.{◌≡◌, suc, ◌-◌, ◌≤◌, length, drop};
ghost use Rattle.words.specs.Splice.{part};
ghost use Rattle.script.specs.Fields.{fields_of, field_of, is_command, is_plain};

// The bytes of a line from `from` up to `to`.
#[derive(Clone, Copy)]
pub struct Span {
    pub from: usize,
    pub to: usize,
}

// How many fields stand behind the first.
fn behind_first(line: &[u8]) -> usize
    ensures { suc result ≡ length (fields_of line.now) }
{
    line.iter().filter(|b| **b == b' ').count()
}

// Where field `k` begins; the line's end where it has no such field.
fn begin(line: &[u8], k: usize) -> usize
    ensures { (result ≤ length line.now) × (field_of line.now k ≡ field_of (drop result line.now) 0) }
{
    let mut left = k;
    for (i, b) in line.iter().enumerate() {
        if left == 0 {
            return i;
        }
        if *b == b' ' {
            left -= 1;
        }
    }
    line.len()
}

// Where the field that begins at `from` ends.
fn end(line: &[u8], from: usize) -> usize
    requires { from ≤ length line.now }
    ensures { (from ≤ result) × (result ≤ length line.now)
        × (part line.now from (result - from) ≡ field_of (drop from line.now) 0) }
{
    for i in from..line.len() {
        if line[i] == b' ' {
            return i;
        }
    }
    line.len()
}

// Field `k`, counted from 0; an empty one where the line has no such field.
pub fn field(line: &[u8], k: usize) -> Span
    ensures { (result.from ≤ result.to) × (result.to ≤ length line.now)
        × (part line.now result.from (result.to - result.from) ≡ field_of line.now k) }
{
    let from = begin(line, k);
    let to = end(line, from);
    Span { from, to }
}

// Whether field `k` has any byte.
pub(crate) fn is_plain_field(line: &[u8], k: usize) -> bool
    ensures { result ≡ is_plain (field_of line.now k) }
{
    let span = field(line, k);
    span.from != span.to
}

// Whether the line is the command `word` with `n` fields behind it.
pub(crate) fn is_command(line: &[u8], word: &[u8], n: usize) -> bool
    ensures { result ≡ is_command line.now word.now n }
{
    let span = field(line, 0);
    let from = span.from;
    let to = span.to;
    if !words::bytes::same(&line[from..to], word) {
        return false;
    }
    behind_first(line) == n
}
