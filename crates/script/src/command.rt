// A line read as a command.
ghost use Rattle.std.specs.Prelude.{◌≡◌};
ghost use Rattle.script.specs.Command.{start_in, upload_in, get_in, act_in, report_in, command_of};

use super::{decimal, fields, hex};

// The numbers of a start-up: text's base and size, arena's base, CPUs.
#[derive(Clone, Copy)]
pub struct Host {
    pub base: u64,
    pub size: usize,
    pub arena: u64,
    pub cpus: u32,
}

// The numbers of an action.
#[derive(Clone, Copy)]
pub struct Request {
    pub action: u32,
    pub time: u32,
}

// A command with its numbers. Names and hex strings stay in the line, as fields of it.
#[derive(Clone, Copy)]
pub enum Command {
    Start(Host),
    Upload,
    Get,
    List,
    Act(Request),
    Report(u32),
    Tick,
    Work,
}

const BASE_MOST: u64 = u64::MAX;

const NUMBER_MOST: u64 = 4294967295;

const SIZE_MOST: u64 = 65536;

fn start_in(line: &[u8]) -> Option<Command>
    ensures { result ≡ start_in line.now }
{
    let base = decimal::read_field(line, 1, BASE_MOST)?;
    let size = decimal::read_field(line, 2, SIZE_MOST)?;
    let arena = decimal::read_field(line, 3, BASE_MOST)?;
    let cpus = decimal::read_field(line, 4, NUMBER_MOST)?;
    if !hex::is_hex_field(line, 5) {
        return None;
    }
    Some(Command::Start(Host {
        base,
        size: size as usize,
        arena,
        cpus: cpus as u32,
    }))
}

fn upload_in(line: &[u8]) -> Option<Command>
    ensures { result ≡ upload_in line.now }
{
    (fields::is_plain_field(line, 1) && hex::is_hex_field(line, 2)).then_some(Command::Upload)
}

fn get_in(line: &[u8]) -> Option<Command>
    ensures { result ≡ get_in line.now }
{
    fields::is_plain_field(line, 1).then_some(Command::Get)
}

fn act_in(line: &[u8]) -> Option<Command>
    ensures { result ≡ act_in line.now }
{
    let action = decimal::read_field(line, 2, NUMBER_MOST)?;
    let time = decimal::read_field(line, 3, NUMBER_MOST)?;
    if !fields::is_plain_field(line, 1) {
        return None;
    }
    Some(Command::Act(Request {
        action: action as u32,
        time: time as u32,
    }))
}

fn report_in(line: &[u8]) -> Option<Command>
    ensures { result ≡ report_in line.now }
{
    let cpu = decimal::read_field(line, 1, NUMBER_MOST)?;
    Some(Command::Report(cpu as u32))
}

// The command of a line, which has no line feed; none where it is unreadable.
pub fn read(line: &[u8]) -> Option<Command>
    ensures { result ≡ command_of line.now }
{
    if fields::is_command(line, b"start", 5) {
        return start_in(line);
    }
    if fields::is_command(line, b"upload", 2) {
        return upload_in(line);
    }
    if fields::is_command(line, b"get", 1) {
        return get_in(line);
    }
    if fields::is_command(line, b"list", 0) {
        return Some(Command::List);
    }
    if fields::is_command(line, b"act", 3) {
        return act_in(line);
    }
    if fields::is_command(line, b"report", 1) {
        return report_in(line);
    }
    if fields::is_command(line, b"tick", 0) {
        return Some(Command::Tick);
    }
    if fields::is_command(line, b"work", 0) {
        return Some(Command::Work);
    }
    None
}
