// An upload: its first line, the lines of its payload, and its end.
ghost use Rattle.std.specs.Prelude.{◌≡◌, ◌≤◌, true, ◌&&◌, ◌++◌, length, take, nat_le};
ghost use Rattle.script.specs.Fields.{field_of};
ghost use Rattle.script.specs.Hex.{is_hex, hex_bytes};
ghost use Rattle.interpreter.specs.Lines.{line_max, kept_max, name_in, list_in, is_end};
ghost use Rattle.interpreter.specs.Parts.{Holds, opened, grown, Ends};
ghost use Rattle.interpreter.specs.Standing.{pending_in, out_room, Within};

use super::buffers::{Gathered, Memory};
use super::console::{Console, Mode, Stepped};
use super::{asking, fields};
use script::hex;
use state::state::State;

// The name and the symbol list of an upload, whose payload follows.
pub(crate) fn open(console: Console, state: State, gathered: &mut Gathered, line: &[u8]) -> Stepped
    requires { Within console × (length line.now ≤ line_max) × (is_hex (field_of line.now 2) ≡ true) }
    ensures value { result ≡ opened console state result.console.name result.console.list }
    ensures holds { Holds gathered.new.name result.console.name (name_in line.now)
        × Holds gathered.new.list result.console.list (list_in line.now) }
    ensures within { Within result.console }
{
    let name_size = fields::keep_name(line, &mut gathered.name);
    let list_size = fields::keep_hex(line, 2, &mut gathered.list);
    Stepped {
        console: Console {
            lines: console.lines,
            mode: Mode::Payload,
            text: console.text,
            id: console.id,
            name: name_size,
            list: list_size,
            file: 0,
        },
        state,
        written: 0,
    }
}

pub(crate) fn is_end(line: &[u8]) -> bool
    ensures { result ≡ is_end line.now }
{
    words::bytes::same(line, b"end")
}

// Whether the line is hex, and not too long.
pub(crate) fn is_hex(line: &[u8]) -> bool
    ensures { result ≡ (nat_le (length line.now) line_max && is_hex line.now) }
{
    if Console::LINE_MAX < line.len() {
        return false;
    }
    hex::is_hex(line)
}

// A line of hex behind the bytes that were gathered, as far as they are kept.
pub(crate) fn gather(
    console: Console,
    state: State,
    file: &mut [u8; Console::FILE_ROOM],
    line: &[u8],
) -> Stepped
    requires { (console.file ≤ kept_max) × (is_hex line.now ≡ true) }
    ensures { (result ≡ grown console state result.console.file) × (result.console.file ≤ kept_max)
        × (take result.console.file file.new
        ≡ take kept_max (take console.file file.old ++ hex_bytes line.now)) }
{
    let at = console.file;
    let n = (Console::FILE_ROOM - at).min(line.len() / 2);
    hex::decode(line, n, file, at);
    let mut next = console;
    next.file = at + n;
    Stepped {
        console: next,
        state,
        written: 0,
    }
}

// The payload is whole: it is uploaded.
pub(crate) fn finish(
    console: Console,
    state: State,
    memory: &mut Memory,
    gathered: &Gathered,
    out: &mut [u8],
) -> Stepped
    requires { Within console × (out_room ≤ length out.old) }
    ensures { Ends console state (pending_in console gathered.now) memory.old result memory.new out.old out.new }
{
    let name_size = console.name;
    let list_size = console.list;
    let file_size = console.file;
    let called = upload::upload::upload(
        state,
        &mut memory.arena,
        &mut memory.ids,
        &gathered.name[..name_size],
        &gathered.list[..list_size],
        &gathered.file[..file_size],
    );
    asking::told(console.with_mode(Mode::Ready), called, out)
}
