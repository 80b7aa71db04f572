// Numbers in a stream: little-endian, unsigned (01, 'Program slot').
ghost use Rattle.std.specs.Prelude.{◌≡◌, ◌+◌, ◌^◌, ◌≤◌, ◌<◌, length};
ghost use Rattle.record_bodies.specs.Numbers.{little};

// The number of n bytes from `at` on.
pub fn number(bytes: &[u8], at: usize, n: usize) -> u64
    requires { (n ≤ 8) × (at + n ≤ length bytes.now) }
    ensures { (result ≡ little bytes.now at n) × (result < 256 ^ n) }
{
    let mut v: u64 = 0;
    // By index: `bytes[at..at + n].iter().rev()` was tried, the proof did not close; it must tie what the iterator has left to the bytes.
    for k in (0..n).rev() {
        v = v * 256 + u64::from(bytes[at + k]);
    }
    v
}
