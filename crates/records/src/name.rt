// The rule of a payload's name.
ghost use Rattle.std.specs.Prelude.{◌≡◌};
ghost use Rattle.records.specs.Name.{is_name};

use super::payload::Payload;

// Whether the bytes are a name: 2 to 128 of them, the last zero and no other.
pub fn is_name(name: &[u8]) -> bool
    ensures { result ≡ is_name name.now }
{
    if name.len() < Payload::NAME_MIN {
        return false;
    }
    if Payload::NAME_MAX < name.len() {
        return false;
    }
    let Some(end) = words::bytes::find_zero(name, 0) else {
        return false;
    };
    end == name.len() - 1
}
