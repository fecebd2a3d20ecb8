// Numbers of 4 and 8 bytes read.
ghost use Rattle.std.specs.Prelude.{◌≡◌, ◌+◌, ◌≤◌, length};
ghost use Rattle.words.specs.Number.{le_at};

pub(crate) fn load4(b: &[u8], at: usize) -> u32
    requires { at + 4 ≤ length b.now }
    ensures { result ≡ le_at 4 b.now at }
{
    words::le::read(b, at, 4) as u32
}

pub(crate) fn load8(b: &[u8], at: usize) -> u64
    requires { at + 8 ≤ length b.now }
    ensures { result ≡ le_at 8 b.now at }
{
    words::le::read(b, at, 8)
}
