// Numbers in bytes, the lowest byte first.
ghost use Rattle.std.specs.Prelude.{◌≡◌, ◌+◌, ◌^◌, ◌≤◌, ◌<◌, length};
ghost use Rattle.recordings.specs.Numbers.{byte, number_at, zeros_at};

// The number of n bytes from a place on.
pub fn number(bytes: &[u8], at: usize, n: usize) -> u64
    requires { (at + n ≤ length bytes.now) × (n ≤ 8) }
    ensures { (result ≡ number_at bytes.now at n) × (result < byte ^ n) }
{
    // `from_le_bytes` takes one width, and this serves widths 2, 4 and 8: no plainer.
    let mut x: u64 = 0;
    for k in (0..n).rev() {
        let b = bytes[at + k] as u64;
        x = x * 256 + b;
    }
    x
}

// Whether n bytes from a place on are 0.
pub fn zeros(bytes: &[u8], at: usize, n: usize) -> bool
    requires { at + n ≤ length bytes.now }
    ensures { result ≡ zeros_at bytes.now at n }
{
    bytes[at..at + n].iter().all(|b| *b == 0)
}
