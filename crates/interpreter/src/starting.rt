// Start-up.
ghost use Rattle.std.specs.Prelude.{◌≡◌, ◌≤◌, true, length, take, replicate};
ghost use Rattle.script.specs.Command.{size_most};
ghost use Rattle.script.specs.Fields.{field_of};
ghost use Rattle.script.specs.Hex.{is_hex};
ghost use Rattle.interpreter.specs.Lines.{line_max, id_in};
ghost use Rattle.interpreter.specs.Parts.{SetsUp, begun, Starts};
ghost use Rattle.interpreter.specs.Standing.{out_room, Within};

use super::buffers::{Gathered, Memory};
use super::console::{Console, Mode, Stepped};
use super::fields;
use answers::lines;
use script::command::Host;
use state::state::{Called, State};

// The loader's start-up with the first bytes of `text`, as many as `host` says.
fn set_up(host: Host, memory: &mut Memory, id: &[u8]) -> Called
    requires { host.size ≤ size_most }
    ensures { SetsUp host id.now result memory.old memory.new }
{
    let size = host.size;
    startup::start(
        &memory.text[..size],
        host.base,
        &mut memory.arena,
        host.arena,
        &mut memory.undo,
        &mut memory.ids,
        id,
        host.cpus,
    )
}

// The console on zero text of this size, with this build-id.
fn begin(
    console: Console,
    state: State,
    size: usize,
    text: &mut [u8; Console::TEXT_MAX],
    id: &mut [u8; Console::LINE_MAX],
    new: &[u8],
    written: usize,
) -> Stepped
    requires { (size ≤ size_most) × (length new.now ≤ line_max) }
    ensures { (result ≡ begun console state size (length new.now) written)
        × (take size text.new ≡ replicate size 0)
        × (take (length new.now) id.new ≡ new.now) }
{
    words::bytes::fill(text, 0, size, 0);
    words::bytes::copy(id, 0, new);
    Stepped {
        console: Console {
            lines: console.lines,
            mode: Mode::Ready,
            text: size,
            id: new.len(),
            name: 0,
            list: 0,
            file: 0,
        },
        state,
        written,
    }
}

// A fresh start-up. Refused, what stood stands.
pub(crate) fn start(
    console: Console,
    state: State,
    host: Host,
    memory: &mut Memory,
    gathered: &mut Gathered,
    line: &[u8],
    out: &mut [u8],
) -> Stepped
    requires within { Within console × (host.size ≤ size_most) × (is_hex (field_of line.now 5) ≡ true) }
    requires line_len_bound { (length line.now ≤ line_max) × (out_room ≤ length out.old) }
    ensures { Starts console state host (id_in line.now) memory.old result memory.new out.old out.new }
{
    let n = fields::keep_hex(line, 5, &mut gathered.list);
    let called = set_up(host, memory, &gathered.list[..n]);
    let verdict = called.verdict;
    let written = lines::verdict(out, 0, verdict);
    if let Err(r) = verdict {
        return Stepped {
            console,
            state,
            written,
        };
    }
    let new = called.state;
    begin(
        console,
        new,
        host.size,
        &mut memory.text,
        &mut memory.id,
        &gathered.list[..n],
        written,
    )
}
