// The payload of a name.
ghost use Rattle.std.specs.Prelude.{◌≡◌, true, length};
ghost use Rattle.state.specs.Find.{with_name};
ghost use Rattle.ranges.specs.Ranges.{in_range};
ghost use Rattle.state_bytes.specs.Layout.{records_size};
ghost use Rattle.state_bytes.specs.Stored.{state_in};

use state_bytes::parts;

// The place in the list of the payload of this name.
pub fn with_name(b: &[u8], name: &[u8]) -> Option<usize>
    requires { (length b.now ≡ records_size) × (in_range (state_in b.now) ≡ true) }
    ensures { result ≡ with_name (state_in b.now) name.now }
{
    let count = parts::count(b);
    for i in 0..count {
        if names::is_named(parts::payload(b, i), name) {
            return Some(i);
        }
    }
    None
}
