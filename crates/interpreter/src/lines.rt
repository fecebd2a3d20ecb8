// One line: as a command, as a payload's, or as a dropped payload's.
ghost use Rattle.std.specs.Prelude.{◌≡◌, ℕ, ◌≤◌, List, length, take};
ghost use Rattle.script.specs.Command.{size_most};
ghost use Rattle.work.specs.Work.{lent, worked_with, work_of};
ghost use Rattle.interpreter.specs.Lines.{command_in, off_line, ready_line, payload_line, dropped_line, line_of};
ghost use Rattle.interpreter.specs.Standing.{unit_in, pending_in, standing, out_room, Within, Gives};
ghost use Rattle.interpreter.specs.declared.buffers.Gathered.{Gathered};
ghost use Rattle.interpreter.specs.declared.buffers.Memory.{Memory};
ghost use Rattle.interpreter.specs.declared.console.Mode.TheVariants.{Off, Ready, Payload, Dropped};

use super::buffers::{Gathered, Memory};
use super::console::{Console, Mode, Stepped};
use super::{asking, starting, uploading};
use memory::config::Config;
use script::command;
use script::command::Command;
use state::state::{Called, State};

// The command of a line that is not too long.
fn command_in(line: &[u8]) -> Option<Command>
    ensures { result ≡ command_in line.now }
{
    if Console::LINE_MAX < line.len() {
        return None;
    }
    command::read(line)
}

// A command before a start-up has succeeded.
fn off_line(
    console: Console,
    state: State,
    command: Option<Command>,
    memory: &mut Memory,
    gathered: &mut Gathered,
    line: &[u8],
    out: &mut [u8],
) -> Stepped
    requires command_value { (command ≡ command_in line.now) × (console.mode ≡ Off) × Within console }
    requires room { out_room ≤ length out.old }
    ensures { Gives (off_line console.lines line.now command) result memory.new gathered.new out.old out.new }
{
    let Some(command) = command else {
        return asking::bad(console, state, out);
    };
    let Command::Start(host) = command else {
        return asking::bad(console, state, out);
    };
    starting::start(console, state, host, memory, gathered, line, out)
}

// The loader's work on the text, of which the first bytes count.
fn work(
    state: State,
    n: usize,
    text: &mut [u8; Console::TEXT_MAX],
    undo: &mut [u8; Config::UNDO_SIZE],
) -> Called
    requires { n ≤ size_most }
    ensures { worked_with result (lent (take n text.new) undo.new)
        ≡ work_of state (lent (take n text.old) undo.old) }
{
    work::work::work(state, &mut text[..n], undo)
}

// A command after it.
fn ready_line(
    console: Console,
    state: State,
    command: Option<Command>,
    memory: &mut Memory,
    gathered: &mut Gathered,
    line: &[u8],
    out: &mut [u8],
) -> Stepped
    requires command_value { (command ≡ command_in line.now) × (console.mode ≡ Ready) × Within console }
    requires room { out_room ≤ length out.old }
    ensures { Gives (ready_line console.lines (unit_in console state memory.old) line.now command)
        result memory.new gathered.new out.old out.new }
{
    let Some(command) = command else {
        return asking::bad(console, state, out);
    };
    match command {
        Command::Start(host) => starting::start(console, state, host, memory, gathered, line, out),
        Command::Upload => uploading::open(console, state, gathered, line),
        Command::Get => asking::get(console, state, line, gathered, out),
        Command::List => asking::list(console, state, out),
        Command::Act(q) => {
            let called = asking::act(console, state, memory, gathered, line, q);
            asking::told(console, called, out)
        }
        Command::Report(cpu) => asking::told(console, rendezvous::report(state, cpu), out),
        Command::Tick => asking::told(console, rendezvous::tick(state), out),
        Command::Work => {
            let n = console.text;
            let called = work(state, n, &mut memory.text, &mut memory.undo);
            asking::told(console, called, out)
        }
    }
}

// A line of a payload.
fn payload_line(
    console: Console,
    state: State,
    memory: &mut Memory,
    gathered: &mut Gathered,
    line: &[u8],
    out: &mut [u8],
) -> Stepped
    requires { (console.mode ≡ Payload) × Within console × (out_room ≤ length out.old) }
    ensures { Gives
        (payload_line console.lines (unit_in console state memory.old) (pending_in console gathered.old) line.now)
        result memory.new gathered.new out.old out.new }
{
    if uploading::is_end(line) {
        return uploading::finish(console, state, memory, gathered, out);
    }
    if uploading::is_hex(line) {
        return uploading::gather(console, state, &mut gathered.file, line);
    }
    asking::bad(console.with_mode(Mode::Dropped), state, out)
}

// A line of a payload that was dropped.
fn dropped_line(console: Console, state: State, line: &[u8]) -> Stepped
    requires { (console.mode ≡ Dropped) × Within console }
    ensures { (m : Memory) (g : Gathered) (out : List ℕ) →
        Gives (dropped_line console.lines (unit_in console state m) line.now) result m g out out }
{
    if uploading::is_end(line) {
        return Stepped {
            console: console.with_mode(Mode::Ready),
            state,
            written: 0,
        };
    }
    Stepped {
        console,
        state,
        written: 0,
    }
}

// The next line of a script, without its line feed: the console and the loader's state after it, and the bytes to write, at the front of `out`.
pub fn line(
    console: Console,
    state: State,
    memory: &mut Memory,
    gathered: &mut Gathered,
    line: &[u8],
    out: &mut [u8],
) -> Stepped
    requires { Within console × (out_room ≤ length out.old) }
    ensures { Gives (line_of (standing console state memory.old gathered.old) line.now)
        result memory.new gathered.new out.old out.new }
{
    let next = console.counted();
    let mode = console.mode;
    match mode {
        Mode::Off => off_line(next, state, command_in(line), memory, gathered, line, out),
        Mode::Ready => ready_line(next, state, command_in(line), memory, gathered, line, out),
        Mode::Payload => payload_line(next, state, memory, gathered, line, out),
        Mode::Dropped => dropped_line(next, state, line),
    }
}
