// Decimal numbers.
ghost use Rattle.std.specs.Prelude.{◌≡◌};
ghost use Rattle.text.specs.Numbers.{with_digit, up_to, number_of, small_of, positive, negative, integer_of};

use crate::tokens;

// The number that a digit after n gives.
#[tactic(auto, unfolding(crate::specs::Numbers::with_digit, crate::specs::Numbers::number_if))]
fn with_digit(n: u64, byte: u8, largest: u64) -> Option<u64>
    ensures { result ≡ with_digit largest n byte }
{
    if !byte.is_ascii_digit() {
        return None;
    }
    let next = n.checked_mul(10)?.checked_add(u64::from(byte - b'0'))?;
    if largest < next {
        return None;
    }
    Some(next)
}

// Digits alone, of a number up to the largest.
#[tactic(auto, using(crate::proofs::Decimal::stops_there, crate::proofs::Decimal::goes_on, crate::proofs::Decimal::ends_there, crate::proofs::Decimal::digit_small))]
fn digits(token: &[u8], largest: u64) -> Option<u64>
    ensures { result ≡ up_to largest 0 token.now }
{
    let mut n: u64 = 0;
    for &byte in token {
        n = with_digit(n, byte, largest)?;
    }
    Some(n)
}

// A number of 1 to `most` digits, up to the largest.
#[tactic(auto, unfolding(crate::specs::Numbers::number_of))]
pub fn read_number(token: &[u8], most: usize, largest: u64) -> Option<u64>
    ensures { result ≡ number_of most largest token.now }
{
    if token.is_empty() {
        return None;
    }
    if most < token.len() {
        return None;
    }
    digits(token, largest)
}

// A number of 32 bits.
#[tactic(auto, using(crate::proofs::Decimal::small), unfolding(crate::specs::Numbers::small_of))]
pub fn read_small(token: &[u8]) -> Option<u32>
    ensures { result ≡ small_of token.now }
{
    let n = read_number(token, 10, u64::from(u32::MAX))?;
    Some(n as u32)
}

// A number of 64 bits.
pub fn read_wide(token: &[u8]) -> Option<u64>
    ensures { result ≡ number_of 20 18446744073709551615 token.now }
{
    read_number(token, 20, u64::MAX)
}

#[tactic(auto, using(crate::proofs::Decimal::small), unfolding(crate::specs::Numbers::positive))]
fn from_zero(token: &[u8]) -> Option<i32>
    ensures { result ≡ positive (number_of 10 2147483647 token.now) }
{
    let n = read_number(token, 10, 2147483647)?;
    Some(n as i32)
}

// What stands after a minus.
#[tactic(auto, using(crate::proofs::Decimal::small), unfolding(crate::specs::Numbers::negative))]
fn below_zero(token: &[u8]) -> Option<i32>
    ensures { result ≡ negative (number_of 10 2147483648 token.now) }
{
    let n = read_number(token, 10, 2147483648)?;
    Some(-(n as i64) as i32)
}

// An integer of 32 bits.
#[tactic(auto, unfolding(crate::specs::Numbers::integer_of))]
pub fn read_integer(token: &[u8]) -> Option<i32>
    ensures { result ≡ integer_of token.now }
{
    if tokens::first(token) == b'-' {
        return below_zero(tokens::tail(token));
    }
    from_zero(token)
}
