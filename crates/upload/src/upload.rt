// The call.
ghost use Rattle.std.specs.Prelude.{◌≡◌, true, ◌<◌, length};
ghost use Rattle.memory.specs.Config.{config_ok, host_for};
ghost use Rattle.memory.specs.Memory.{slot_count, arena_size};
ghost use Rattle.acceptance.specs.Stages.{setting};
ghost use Rattle.prepare.specs.Prepare.{outcome};
ghost use Rattle.upload.specs.Upload.{lent, request, prepared_in, uploaded, Uploads};

use memory::config::Config;
use prepare::prepare::Prepared;
use records::payload::Payload;
use records::refusal::Refusal;
use state::state::{Called, State};
use upload_record::enter;
use upload_room::room;

// The payload prepared in slot `slot` of the arena; a refusal leaves the arena as it was.
pub fn prepare_in(
    config: Config,
    arena: &mut [u8],
    slot: usize,
    list: &[u8],
    file: &[u8],
) -> Result<Prepared, Refusal>
    requires { (config_ok config ≡ true) × (slot < slot_count) × (length arena.old ≡ arena_size) }
    ensures { outcome result arena.new
        ≡ prepared_in (setting (host_for config slot) list.now) arena.old slot file.now }
{
    let start = Payload::PLACED_MAX * slot;
    let end = start + Payload::PLACED_MAX;
    prepare::prepare::prepare(file, list, config.host(slot), &mut arena[start..end])
}

// The payload `file` under `name`, its undefined symbols looked up in `list`. Accepted, the lowest free slot and its id store entry are
// written; refused, nothing is.
pub fn upload(
    state: State,
    arena: &mut [u8],
    ids: &mut [u8],
    name: &[u8],
    list: &[u8],
    file: &[u8],
) -> Called
    ensures { Uploads state (lent arena.old ids.old)
        (request name.now list.now file.now)
        (uploaded result (lent arena.new ids.new)) }
{
    let slot = match room::room_for(state, arena.len(), ids.len(), name, list) {
        Ok(slot) => slot,
        Err(r) => {
            return Called {
                verdict: Err(r),
                state,
            };
        }
    };
    let config = state.config;
    let prepared = match prepare_in(config, arena, slot, list, file) {
        Ok(prepared) => prepared,
        Err(r) => {
            return Called {
                verdict: Err(r),
                state,
            };
        }
    };
    let next = enter::enter(state, ids, name, slot, prepared);
    Called {
        verdict: Ok(()),
        state: next,
    }
}
