// Answers, written into lent bytes from a place on. Each function gives the place after what it wrote; what has no room is
// left out. (Values and bounds have no Display: their types are of crates below, which know nothing of tokens.)
ghost use Rattle.std.specs.Prelude.{[], ◌∷◌};
ghost use Rattle.text.specs.Writing.{Put, number_text, integer_text, value_text, bound_text};

use grammar::values::Val;
use itoa::Buffer;
use time::Bound;

pub fn put(out: &mut [u8], at: usize, byte: u8) -> usize
    ensures { Put out.old at (byte ∷ []) out.new result }
{
    if at < out.len() {
        out[at] = byte;
        return at + 1;
    }
    at
}

pub fn put_all(out: &mut [u8], at: usize, bytes: &[u8]) -> usize
    ensures { Put out.old at bytes.now out.new result }
{
    let mut here = at;
    for &byte in bytes {
        here = put(out, here, byte);
    }
    here
}

// A number in decimal.
#[tactic(auto, using(crate::proofs::Spelling::number))]
pub fn put_number(out: &mut [u8], at: usize, n: u64) -> usize
    ensures { Put out.old at (number_text n) out.new result }
{
    put_all(out, at, Buffer::new().format(n).as_bytes())
}

// An integer in decimal.
#[tactic(auto, using(crate::proofs::Spelling::integer))]
pub fn put_integer(out: &mut [u8], at: usize, n: i32) -> usize
    ensures { Put out.old at (integer_text n) out.new result }
{
    put_all(out, at, Buffer::new().format(n).as_bytes())
}

// A value as its token.
#[tactic(auto, using(crate::proofs::Places::both))]
pub fn put_value(out: &mut [u8], at: usize, value: Val) -> usize
    ensures { Put out.old at (value_text value) out.new result }
{
    match value {
        Val::Boolean(true) => put_all(out, at, b"b1"),
        Val::Boolean(false) => put_all(out, at, b"b0"),
        Val::Integer(n) => {
            let here = put(out, at, b'i');
            put_integer(out, here, n)
        }
    }
}

// An end of a range as its token.
#[tactic(auto, using(crate::proofs::Places::both))]
pub fn put_bound(out: &mut [u8], at: usize, bound: Bound) -> usize
    ensures { Put out.old at (bound_text bound) out.new result }
{
    match bound {
        Bound::Included(t) => {
            let here = put(out, at, b'=');
            put_number(out, here, u64::from(t))
        }
        Bound::Excluded(t) => {
            let here = put(out, at, b'!');
            put_number(out, here, u64::from(t))
        }
        Bound::Unbounded => put(out, at, b'*'),
    }
}
