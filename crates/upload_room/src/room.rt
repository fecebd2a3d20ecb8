// The rules up to the slot.
ghost use Rattle.std.specs.Prelude.{◌≡◌};
ghost use Rattle.state.specs.Find.{with_name, free_slot};
ghost use Rattle.ranges.specs.Ranges.{in_range as state_in_range};
ghost use Rattle.upload_room.specs.Room.{upload_sizes_ok, room_rules, request_rules, room_by};

use memory::config::Config;
use outlines::outline;
use records::name;
use records::refusal::{self, Place, Reason, Refusal};
use state::state::State;

// Whether the lent sizes are right, by whether the state is in range.
pub fn sizes_ok(in_range: bool, arena: usize, ids: usize) -> bool
    ensures { (s : State) → in_range ≡ state_in_range s → result ≡ upload_sizes_ok s arena ids }
{
    if !in_range {
        return false;
    }
    if arena != Config::ARENA_SIZE {
        return false;
    }
    ids == Config::IDS_SIZE
}

// The rules after the sizes: name, symbol list, 17, slot. `loaded` is where the state has that name, `free` its free slot.
#[tactic(auto, unfolding(crate::specs::Room::room_rules))]
pub fn find_room(
    name: &[u8],
    list: &[u8],
    loaded: Option<usize>,
    free: Option<usize>,
) -> Result<usize, Refusal>
    ensures { (s : State) → loaded ≡ with_name s name.now → free ≡ free_slot s
        → result ≡ room_by s (room_rules s name.now list.now) }
{
    if !name::is_name(name) {
        return refusal::refused(Reason::Invalid, Place::Nowhere);
    }
    if !symbols::is_valid(list) {
        return refusal::refused(Reason::Invalid, Place::Nowhere);
    }
    if let Some(_) = loaded {
        return refusal::refused(Reason::Loaded, Place::Nowhere);
    }
    let Some(slot) = free else {
        return refusal::refused(Reason::NoRoom, Place::Nowhere);
    };
    Ok(slot)
}

// The slot that the payload takes, or why it gets none, by the lengths of arena and id store.
pub fn room_for(
    state: State,
    arena: usize,
    ids: usize,
    name: &[u8],
    list: &[u8],
) -> Result<usize, Refusal>
    ensures { result ≡ room_by state (request_rules state arena ids name.now list.now) }
{
    if !sizes_ok(ranges::ranges::in_range(state), arena, ids) {
        return refusal::refused(Reason::Invalid, Place::Nowhere);
    }
    let loaded = names::with_name(state, name);
    let free = outline::free_slot(outline::outline_of(state));
    find_room(name, list, loaded, free)
}
