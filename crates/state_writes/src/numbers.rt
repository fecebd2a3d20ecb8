// Numbers of 4 and 8 bytes written.
ghost use Rattle.std.specs.Prelude.{◌≡◌, ◌+◌, ◌≤◌, ◌<◌, ◌^◌, length};
ghost use Rattle.words.specs.Number.{le_bytes};
ghost use Rattle.words.specs.Splice.{splice};

// A number of 4 bytes fits them, and one of 8 bytes too.
pub(crate) fn store4(b: &mut [u8], at: usize, x: u32)
    requires { at + 4 ≤ length b.old }
    ensures b_after { b.new ≡ splice b.old at (le_bytes 4 x) }
    ensures x_bound { x < 256 ^ 4 }
{
    words::le::write(b, at, 4, x as u64);
}

pub(crate) fn store8(b: &mut [u8], at: usize, x: u64)
    requires { at + 8 ≤ length b.old }
    ensures b_after { b.new ≡ splice b.old at (le_bytes 8 x) }
    ensures x_bound { x < 256 ^ 8 }
{
    words::le::write(b, at, 8, x);
}
