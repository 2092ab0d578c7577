// Words copied.
ghost use Rattle.std.specs.Prelude.{◌≡◌, length};

// All of one slice into another of its length. `copy_from_slice` costs a wait 12 per cent more instructions than this loop.
pub fn copy(to: &mut [u64], from: &[u64])
    requires { length to.old ≡ length from.now }
    ensures { to.new ≡ from.now }
{
    for i in 0..from.len() {
        to[i] = from[i];
    }
}
