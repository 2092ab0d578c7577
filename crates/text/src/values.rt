// Values, `b0`, `b1` or `iI`, and kinds, `b` or `i`.
ghost use Rattle.std.specs.Prelude.{◌≡◌};
ghost use Rattle.text.specs.Values.{value_of, kind_of};

use crate::{numbers, tokens};
use grammar::values;
use grammar::values::Val;

#[tactic(auto, unfolding(crate::specs::Values::value_of))]
pub fn read_value(token: &[u8]) -> Option<Val>
    ensures { result ≡ value_of token.now }
{
    if tokens::is(token, b"b0") {
        return Some(Val::Boolean(false));
    }
    if tokens::is(token, b"b1") {
        return Some(Val::Boolean(true));
    }
    if tokens::first(token) == b'i' {
        return numbers::read_integer(tokens::tail(token)).map(Val::Integer);
    }
    None
}

// The word of a kind's letter.
pub fn kind(letter: u8) -> Option<u64>
    ensures { result ≡ kind_of letter }
{
    match letter {
        b'b' => Some(values::BOOLEAN),
        b'i' => Some(values::INTEGER),
        _ => None,
    }
}
