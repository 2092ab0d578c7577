// The items of an expression.
ghost use Rattle.std.specs.Prelude.{◌≡◌, length};
ghost use Rattle.text.specs.Items.{letter_of, constant_of, variable_of, long_of, symbol_of, word_at, closes_at, words_from, items_from, expression_words, expression_at};
ghost use Rattle.std.proofs.lemmas.List.Edits.{sets};

use crate::tokens::Read;
use crate::{numbers, tokens};
use grammar::items::{Binary, Item, Unary};
use grammar::values::Val;

// What a token stands for: an item, or `x`, an item that is none. (Of three kinds: an Option in an Option is no plainer.)
#[derive(Clone, Copy)]
pub enum Symbol {
    Item(Item),
    Nothing,
    Bad,
}

// A token of one byte.
#[tactic(auto, unfolding(crate::specs::Items::letter_of))]
fn letter(byte: u8) -> Symbol
    ensures { result ≡ letter_of byte }
{
    match byte {
        b't' => Symbol::Item(Item::Constant(Val::Boolean(true))),
        b'f' => Symbol::Item(Item::Constant(Val::Boolean(false))),
        b'!' => Symbol::Item(Item::Unary(Unary::Not)),
        b'&' => Symbol::Item(Item::Binary(Binary::And)),
        b'|' => Symbol::Item(Item::Binary(Binary::Or)),
        b'~' => Symbol::Item(Item::Unary(Unary::Negate)),
        b'+' => Symbol::Item(Item::Binary(Binary::Add)),
        b'-' => Symbol::Item(Item::Binary(Binary::Subtract)),
        b'*' => Symbol::Item(Item::Binary(Binary::Multiply)),
        b'/' => Symbol::Item(Item::Binary(Binary::Divide)),
        b'%' => Symbol::Item(Item::Binary(Binary::Remainder)),
        b'=' => Symbol::Item(Item::Binary(Binary::Equal)),
        b'<' => Symbol::Item(Item::Binary(Binary::Less)),
        b'?' => Symbol::Item(Item::Draw),
        b'x' => Symbol::Nothing,
        _ => Symbol::Bad,
    }
}

fn constant(n: Option<i32>) -> Symbol
    ensures { result ≡ constant_of n }
{
    match n {
        Some(i) => Symbol::Item(Item::Constant(Val::Integer(i))),
        None => Symbol::Bad,
    }
}

fn variable(n: Option<u32>) -> Symbol
    ensures { result ≡ variable_of n }
{
    match n {
        Some(v) => Symbol::Item(Item::Variable(v)),
        None => Symbol::Bad,
    }
}

// A token of two bytes or more: what follows its first byte decides.
#[tactic(auto, unfolding(crate::specs::Items::long_of))]
fn longer(byte: u8, rest: &[u8]) -> Symbol
    ensures { result ≡ long_of byte rest.now }
{
    match byte {
        b'#' => constant(numbers::read_integer(rest)),
        b'v' => variable(numbers::read_small(rest)),
        b'<' => {
            if tokens::is(rest, b"=") {
                Symbol::Item(Item::Binary(Binary::LessOrEqual))
            } else {
                Symbol::Bad
            }
        }
        _ => Symbol::Bad,
    }
}

// The item of a token.
#[tactic(auto, unfolding(crate::specs::Items::symbol_of))]
pub fn read_symbol(token: &[u8]) -> Symbol
    ensures { result ≡ symbol_of token.now }
{
    let byte = tokens::first(token);
    if token.len() < 2 {
        return letter(byte);
    }
    longer(byte, tokens::tail(token))
}

// The word of a token's item; 0 is the word of none.
#[tactic(auto, unfolding(crate::specs::Items::symbol_word))]
pub fn read_word(token: &[u8]) -> Option<u64>
    ensures { result ≡ word_at token.now }
{
    match read_symbol(token) {
        Symbol::Item(i) => Some(i.word()),
        Symbol::Nothing => Some(0),
        Symbol::Bad => None,
    }
}

// Whether the token at a place ends an expression.
fn closes(line: &[u8], at: usize) -> bool
    ensures { result ≡ closes_at line.now at }
{
    tokens::is(tokens::token(line, at), b"}")
}

// The items from a place on, up to the brace that closes. (How many there are is answered, so the loop counts them.)
#[tactic(auto, using(crate::proofs::Readings::start, crate::proofs::Readings::closed_items, crate::proofs::Readings::closed_words, crate::proofs::Readings::broken_items, crate::proofs::Readings::broken_words, crate::proofs::Readings::full_items, crate::proofs::Readings::full_words))]
fn read_items(line: &[u8], at: usize, words: &mut [u64]) -> Option<Read>
    ensures value { result ≡ items_from (length words.old) line.now at 0 }
    ensures words_after { words.new ≡ sets words.old 0 (words_from (length words.old) line.now at) }
{
    let mut here = at;
    for count in 0..words.len() {
        if closes(line, here) {
            return Some(Read {
                count,
                next: tokens::next(line, here),
            });
        }
        words[count] = read_word(tokens::token(line, here))?;
        here = tokens::next(line, here);
    }
    if !closes(line, here) {
        return None;
    }
    Some(Read {
        count: words.len(),
        next: tokens::next(line, here),
    })
}

// The expression `{ items }` that starts at a place, its words in the lent ones: it has as many items at most.
pub fn read_expression(line: &[u8], at: usize, words: &mut [u64]) -> Option<Read>
    ensures value { result ≡ expression_at (length words.old) line.now at }
    ensures words_after { words.new ≡ sets words.old 0 (expression_words (length words.old) line.now at) }
{
    if !tokens::is(tokens::token(line, at), b"{") {
        return None;
    }
    read_items(line, tokens::next(line, at), words)
}
