// The end of a time range: `*` absent, `=N` included, `!N` excluded.
ghost use Rattle.std.specs.Prelude.{◌≡◌};
ghost use Rattle.text.specs.Bounds.{limit_of};

use crate::{numbers, tokens};
use time::Bound;

#[tactic(auto, unfolding(crate::specs::Bounds::limit_of))]
pub fn read_limit(token: &[u8]) -> Option<Bound>
    ensures { result ≡ limit_of token.now }
{
    if tokens::is(token, b"*") {
        return Some(Bound::Unbounded);
    }
    let n = numbers::read_small(tokens::tail(token));
    match tokens::first(token) {
        b'=' => n.map(Bound::Included),
        b'!' => n.map(Bound::Excluded),
        _ => None,
    }
}
