// The status and the last result of a payload.
ghost use Rattle.std.specs.Prelude.{◌≡◌};
ghost use Rattle.state.specs.State.{result_word};
ghost use Rattle.queries.specs.Get.{got, get_of};

use records::name;
use records::payload::Payload;
use records::refusal::{self, Place, Reason, Refusal};
use state::state::State;

// Status and last result.
#[derive(Clone, Copy)]
pub struct Got {
    pub status: u32,
    pub result: u32,
}

// The last result, kept as its magnitude, as a negated 32-bit number.
pub fn result_word(magnitude: u32) -> u32
    ensures { result ≡ result_word magnitude }
{
    if magnitude == 0 {
        return 0;
    }
    u32::MAX - (magnitude - 1)
}

// What is said of a payload.
pub fn answer(payload: Payload) -> Got
    ensures { result ≡ got payload }
{
    Got {
        status: payload.status,
        result: result_word(payload.result),
    }
}

// The payload of this name.
#[tactic(auto, unfolding(crate::specs::Get::get_of, crate::specs::Get::get_rules))]
pub fn get(state: State, name: &[u8]) -> Result<Got, Refusal>
    ensures { result ≡ get_of state name.now }
{
    if !ranges::ranges::in_range(state) {
        return refusal::refused(Reason::Invalid, Place::Nowhere);
    }
    if !name::is_name(name) {
        return refusal::refused(Reason::Invalid, Place::Nowhere);
    }
    let Some(i) = names::with_name(state, name) else {
        return refusal::refused(Reason::NotLoaded, Place::Nowhere);
    };
    Ok(answer(state.payloads[i]))
}
