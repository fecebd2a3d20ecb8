// Start-up: the host lends its memory.
#![tactic(auto)]

ghost use Rattle.std.specs.Prelude.{◌≡◌};
ghost use Rattle.startup.specs.Start.{stores_ok, refused_start, started, start_of};

use machine::processor::Processor;
use memory::config::Config;
use records::payload::Payload;
use records::refusal::{self, Place, Reason};
use state::state::{Called, State};

fn stores_ok(arena: usize, undo: usize, ids: usize) -> bool
    ensures { result ≡ stores_ok arena undo ids }
{
    if arena != Config::ARENA_SIZE {
        return false;
    }
    if undo != Config::UNDO_SIZE {
        return false;
    }
    ids == Config::IDS_SIZE
}

fn refuse() -> Called
    ensures { result ≡ refused_start }
{
    let verdict = refusal::refused(Reason::Invalid, Place::Nowhere);
    let state = State::with_config(Config::none());
    Called { verdict, state }
}

// Arena and stores are zeroed, and nothing is loaded. Refused, nothing is written, and no call accepts the state.
pub fn start(
    text: &[u8],
    text_base: u64,
    arena: &mut [u8],
    arena_base: u64,
    undo: &mut [u8],
    ids: &mut [u8],
    build_id: &[u8],
    cpus: u32,
) -> Called
    ensures { started result arena.new undo.new ids.new
        ≡ start_of (record {
          text = text.entry.now;
          text_base = text_base;
          arena = arena.old;
          arena_base = arena_base;
          undo = undo.old;
          ids = ids.old;
          build_id = build_id.now;
          cpus = cpus;
        }) }
{
    if !stores_ok(arena.len(), undo.len(), ids.len()) {
        return refuse();
    }
    if Payload::ID_MAX < build_id.len() {
        return refuse();
    }
    let config = Config {
        processor: Processor::X86_64,
        text: text_base,
        text_length: text.len() as u64,
        arena: arena_base,
        id_length: build_id.len() as u32,
        cpus,
    };
    if !config.is_valid() {
        return refuse();
    }
    words::bytes::fill(arena, 0, Config::ARENA_SIZE, 0);
    words::bytes::fill(undo, 0, Config::UNDO_SIZE, 0);
    words::bytes::fill(ids, 0, Config::IDS_SIZE, 0);
    let state = State::with_config(config);
    Called {
        verdict: Ok(()),
        state,
    }
}
