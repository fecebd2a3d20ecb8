// A byte and a text, written.
ghost use Rattle.std.specs.Prelude.{◌≡◌, [], ◌∷◌, ◌+◌, ◌<◌, ◌≤◌, length};
ghost use Rattle.answers.specs.Written.{written, writing};

pub(crate) fn byte(out: &mut [u8], at: usize, b: u8) -> usize
    requires { at < length out.old }
    ensures { written out.new result ≡ writing out.old at (b ∷ []) }
{
    out[at] = b;
    at + 1
}

pub(crate) fn text(out: &mut [u8], at: usize, s: &[u8]) -> usize
    requires { at + length s.now ≤ length out.old }
    ensures { written out.new result ≡ writing out.old at s.now }
{
    words::bytes::copy(out, at, s);
    at + s.len()
}
