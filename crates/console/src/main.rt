// The console: reads a script from standard input, a line at a time, runs it on the loader, and writes the answers.
#![tactic(auto)]

mod streams;

ghost use Rattle.std.specs.Prelude.{◌≡◌, ◌≤◌};
ghost use Rattle.console.specs.Buffers.{held_max, Ready};

use interpreter::buffers::{Gathered, Memory};
use interpreter::console::Console;
use interpreter::lines;
use memory::config::Config;
use state::state::State;
use std::io;
use streams::Streams;

// A line is held up to one byte more than it may have, so that one that is too long is seen.
const HELD_MAX: usize = Console::LINE_MAX + 1;

// How many bytes are read at once.
const INPUT_ROOM: usize = 65536;

// What is kept from one read to the next: the console, the loader's state, and how many bytes of the line are held.
#[derive(Clone, Copy)]
struct Run {
    console: Console,
    state: State,
    held: usize,
}

// The line that is held, without its line feed, is run, and its answer written.
fn run_line(
    streams: &mut Streams,
    run: Run,
    memory: &mut Memory,
    gathered: &mut Gathered,
    line: &[u8; HELD_MAX],
    out: &mut [u8; Console::OUT_ROOM],
) -> Run
    requires { Ready run.console run.held }
    ensures { Ready result.console result.held }
{
    let held = run.held;
    let stepped = lines::line(run.console, run.state, memory, gathered, &line[..held], out);
    let n = stepped.written;
    let console = stepped.console;
    let state = stepped.state;
    streams.write(&out[..n]);
    Run {
        console,
        state,
        held: 0,
    }
}

// One byte of a line, where there is room for it.
fn hold(run: Run, line: &mut [u8; HELD_MAX], b: u8) -> Run
    requires { run.held ≤ held_max }
    ensures { (result.console ≡ run.console) × (result.held ≤ held_max) }
{
    let held = run.held;
    let console = run.console;
    let state = run.state;
    if held < line.len() {
        line[held] = b;
        return Run {
            console,
            state,
            held: held + 1,
        };
    }
    run
}

// One byte of the input: a line feed ends a line.
fn run_byte(
    streams: &mut Streams,
    run: Run,
    memory: &mut Memory,
    gathered: &mut Gathered,
    line: &mut [u8; HELD_MAX],
    out: &mut [u8; Console::OUT_ROOM],
    b: u8,
) -> Run
    requires { Ready run.console run.held }
    ensures { Ready result.console result.held }
{
    if b == b'\n' {
        return run_line(streams, run, memory, gathered, line, out);
    }
    hold(run, line, b)
}

// The bytes that were read.
fn run_bytes(
    streams: &mut Streams,
    start: Run,
    memory: &mut Memory,
    gathered: &mut Gathered,
    line: &mut [u8; HELD_MAX],
    out: &mut [u8; Console::OUT_ROOM],
    bytes: &[u8],
) -> Run
    requires { Ready start.console start.held }
    ensures { Ready result.console result.held }
{
    let mut run = start;
    for b in bytes {
        run = run_byte(streams, run, memory, gathered, line, out, *b);
    }
    run
}

// Nothing says that the input ends, so the reads are counted, up to a number that no run reaches. A last line may lack its line feed.
fn serve(streams: &mut Streams, memory: &mut Memory, gathered: &mut Gathered) {
    let mut line = [0u8; HELD_MAX];
    let mut out = [0u8; Console::OUT_ROOM];
    let mut input = [0u8; INPUT_ROOM];
    let mut run = Run {
        console: Console::first(),
        state: State::with_config(Config::none()),
        held: 0,
    };
    for _ in 0..u64::MAX {
        if streams.has_failed() {
            break;
        }
        let n = streams.read(&mut input);
        if n == 0 {
            break;
        }
        run = run_bytes(
            streams,
            run,
            memory,
            gathered,
            &mut line,
            &mut out,
            &input[..n],
        );
    }
    if run.held > 0 {
        run_line(streams, run, memory, gathered, &line, &mut out);
    }
}

fn main(rt: HostRuntime) -> io::Result<()> {
    let mut streams = Streams::new(&rt);
    let mut memory = Memory {
        text: [0u8; Console::TEXT_MAX],
        arena: [0u8; Config::ARENA_SIZE],
        undo: [0u8; Config::UNDO_SIZE],
        ids: [0u8; Config::IDS_SIZE],
        id: [0u8; Console::LINE_MAX],
    };
    let mut gathered = Gathered {
        name: [0u8; Console::NAME_ROOM],
        list: [0u8; Console::LINE_MAX],
        file: [0u8; Console::FILE_ROOM],
    };
    serve(&mut streams, &mut memory, &mut gathered);
    streams.outcome()
}
