// Answers at the front of `out`: a bad line, what a call said, what get and list say; and an action by the line's name.
ghost use Rattle.std.specs.Prelude.{◌≡◌, ◌≤◌, length, take};
ghost use Rattle.actions.specs.Actions.{acted, lent, request, action_of};
ghost use Rattle.queries.specs.Get.{get_of};
ghost use Rattle.answers.specs.Answers.{bad_line, verdict_line, got_line, list_lines};
ghost use Rattle.interpreter.specs.Lines.{line_max, name_in, listed};
ghost use Rattle.interpreter.specs.Parts.{Says};
ghost use Rattle.interpreter.specs.Standing.{out_room, Within};

use super::buffers::{Gathered, Memory};
use super::console::{Console, Stepped};
use super::fields;
use answers::{lines, listed};
use memory::config::Config;
use records::payload::Payload;
use script::command::Request;
use state::state::{Called, State};

// The line cannot be read.
pub(crate) fn bad(console: Console, state: State, out: &mut [u8]) -> Stepped
    requires { out_room ≤ length out.old }
    ensures { Says console state (bad_line console.lines) result out.old out.new }
{
    let written = lines::bad_line(out, 0, console.lines);
    Stepped {
        console,
        state,
        written,
    }
}

// What a call answered, and the state after it.
pub(crate) fn told(console: Console, called: Called, out: &mut [u8]) -> Stepped
    requires { out_room ≤ length out.old }
    ensures { Says console called.state (verdict_line called.verdict) result out.old out.new }
{
    let verdict = called.verdict;
    let state = called.state;
    let written = lines::verdict(out, 0, verdict);
    Stepped {
        console,
        state,
        written,
    }
}

// What get says of the payload that the line names.
pub(crate) fn get(
    console: Console,
    state: State,
    line: &[u8],
    gathered: &mut Gathered,
    out: &mut [u8],
) -> Stepped
    requires { (length line.now ≤ line_max) × (out_room ≤ length out.old) }
    ensures { Says console state (got_line (get_of state (name_in line.now))) result out.old out.new }
{
    let n = fields::keep_name(line, &mut gathered.name);
    let got = queries::get::get(state, &gathered.name[..n]);
    let written = lines::got(out, 0, got);
    Stepped {
        console,
        state,
        written,
    }
}

// The list of all payloads.
pub(crate) fn list(console: Console, state: State, out: &mut [u8]) -> Stepped
    requires { out_room ≤ length out.old }
    ensures { Says console state (list_lines (listed state)) result out.old out.new }
{
    let mut statuses = [0u8; 8 * Config::SLOTS];
    let mut names = [0u8; Payload::NAME_MAX * Config::SLOTS];
    let mut lengths = [0u8; 4 * Config::SLOTS];
    let answer = listing::list(
        state,
        0,
        Config::SLOTS as u32,
        &mut statuses,
        &mut names,
        &mut lengths,
    );
    let written = listed::listed(out, 0, answer, &statuses, &names, &lengths);
    Stepped {
        console,
        state,
        written,
    }
}

// An action on the payload that the line names.
pub(crate) fn act(
    console: Console,
    state: State,
    memory: &mut Memory,
    gathered: &mut Gathered,
    line: &[u8],
    q: Request,
) -> Called
    requires { (length line.now ≤ line_max) × Within console }
    ensures answer { acted result (lent memory.new.arena memory.new.undo memory.new.ids)
        ≡ action_of state (take console.id memory.old.id)
        (lent memory.old.arena memory.old.undo memory.old.ids)
        (request (name_in line.now) q.action q.time) }
    ensures kept { (memory.new.text ≡ memory.old.text) × (memory.new.id ≡ memory.old.id) }
{
    let name_size = fields::keep_name(line, &mut gathered.name);
    let id_size = console.id;
    actions::action::action(
        state,
        &mut memory.arena,
        &mut memory.undo,
        &mut memory.ids,
        &memory.id[..id_size],
        &gathered.name[..name_size],
        q.action,
        q.time,
    )
}
