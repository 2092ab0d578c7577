// An integer as 32 bits, and back.
ghost use Rattle.std.specs.Prelude.{◌≡◌};
ghost use Rattle.grammar.specs.Bits.{bits_of, from_bits};

pub fn bits_of(n: i32) -> u32
    ensures { result ≡ bits_of n }
{
    if 0 <= n {
        n as u32
    } else {
        4294967295 - ((-1 - n) as u32)
    }
}

pub fn from_bits(b: u32) -> i32
    ensures { result ≡ from_bits b }
{
    if b < 2147483648 {
        b as i32
    } else {
        -1 - ((4294967295 - b) as i32)
    }
}
