// Big-endian numbers of 0 to 8 bytes: one function and one proof for every width.
ghost use Rattle.std.specs.Prelude.{◌≡◌, ◌+◌, ◌^◌, ◌<◌, ◌≤◌, length};
ghost use Rattle.words.specs.Splice.{splice};
ghost use Rattle.words.specs.Number.{be_at, be_bytes};

// The number of the n bytes of `s` from `at` on, the highest byte first.
pub fn read(s: &[u8], at: usize, n: usize) -> u64
    requires { (at + n ≤ length s.now) × (n ≤ 8) }
    ensures value { result ≡ be_at n s.now at }
    ensures upper_bound { result < 256 ^ n }
{
    let mut x: u64 = 0;
    for i in 0..n {
        x = x * 256 + super::le::wide(s[at + i]);
    }
    x
}

// The lowest n bytes of `x` over those of `s` from `at` on, the highest byte first.
pub fn write(s: &mut [u8], at: usize, n: usize, x: u64)
    requires { at + n ≤ length s.old }
    ensures { s.new ≡ splice s.old at (be_bytes n x) }
{
    let mut y = x;
    for i in (0..n).rev() {
        s[at + i] = (y % 256) as u8;
        y = y / 256;
    }
}
