// Names and hex strings of a line, at the front of a buffer.
ghost use Rattle.std.specs.Prelude.{◌≡◌, ◌<◌, ◌≤◌, true, length};
ghost use Rattle.script.specs.Fields.{field_of};
ghost use Rattle.script.specs.Hex.{is_hex, hex_bytes};
ghost use Rattle.interpreter.specs.Lines.{name_in};
ghost use Rattle.interpreter.specs.Parts.{Holds};

use script::{fields, hex};

// The name in field 1, with its zero.
pub(crate) fn keep_name(line: &[u8], name: &mut [u8]) -> usize
    requires { length line.now < length name.old }
    ensures { Holds name.new result (name_in line.now) }
{
    let span = fields::field(line, 1);
    let from = span.from;
    let to = span.to;
    words::bytes::copy(name, 0, &line[from..to]);
    let n = to - from;
    name[n] = 0;
    n + 1
}

// The bytes that field `k` stands for in hex.
pub(crate) fn keep_hex(line: &[u8], k: usize, out: &mut [u8]) -> usize
    requires { (is_hex (field_of line.now k) ≡ true) × (length line.now ≤ length out.old) }
    ensures { Holds out.new result (hex_bytes (field_of line.now k)) }
{
    let span = fields::field(line, k);
    let from = span.from;
    let to = span.to;
    let n = (to - from) / 2;
    hex::decode(&line[from..to], n, out, 0);
    n
}
