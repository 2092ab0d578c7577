// The draws of an expression.
ghost use Rattle.std.specs.Prelude.{◌≡◌, ◌/◌, ◌^◌, ltb};
ghost use Rattle.grammar.specs.Items.{item_of};
ghost use Rattle.grammar.specs.Draws.{draws_in, draws_of};

use crate::items;

// 1 for the word of a draw.
fn draws_in(w: u64) -> usize
    ensures { result ≡ draws_in (item_of w) }
{
    if w == items::DRAW {
        return 1;
    }
    0
}

// How many draws there are among the items.
#[tactic(auto, using(crate::proofs::DrawLaws::draws_sum))]
pub fn count_draws(items: &[u64]) -> usize
    ensures { result ≡ draws_of items.now }
{
    items.iter().map(|w| draws_in(*w)).sum()
}

// Whether there is a draw among the items.
#[tactic(auto, using(crate::proofs::DrawLaws::draws_any))]
pub fn has_draws(items: &[u64]) -> bool
    ensures { result ≡ ltb 0 (draws_of items.now) }
{
    items.contains(&items::DRAW)
}

// What an item leaves of the word: a draw takes the lowest bit.
pub(crate) fn left(word: u64, w: u64) -> u64
    ensures { result ≡ word / 2 ^ draws_in (item_of w) }
{
    if w == items::DRAW {
        return word / 2;
    }
    word
}

// What the items leave of the word.
#[tactic(auto, using(crate::proofs::DrawLaws::left_fold))]
pub(crate) fn rest(items: &[u64], word: u64) -> u64
    ensures { result ≡ word / 2 ^ draws_of items.now }
{
    items.iter().fold(word, |bits, w| left(bits, *w))
}
