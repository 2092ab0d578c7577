// A line, and how far it is taken. What stands in it is taken token by token.
ghost use Rattle.std.specs.Prelude.{◌≡◌};
ghost use Rattle.graph_text.specs.Lines.{token_at, given, at_end, held, past_if, alone};
ghost use Rattle.text.specs.Numbers.{small_of, number_of};
ghost use Rattle.text.specs.Tokens.{next_of, same_bytes};

use crate::faults::Fault;
use grammar::values::Slot;
use text::lists::List;
use text::tokens::Read;
use text::{items, lists, numbers, rows, tokens};

#[derive(Clone, Copy)]
pub struct Line<'a> {
    pub bytes: &'a [u8],
    pub at: usize,
}

impl<'a> Line<'a> {
    // Nothing of it is taken.
    pub fn new(bytes: &'a [u8]) -> Line<'a>
        ensures bytes { result.bytes.now ≡ bytes.now }
        ensures start { result.at ≡ 0 }
    {
        Line { bytes, at: 0 }
    }

    // Takes the token that comes next.
    #[tactic(auto, unfolding(text::specs::Tokens::next_of))]
    pub fn next(&mut self) -> &'a [u8]
        ensures token { result.now ≡ token_at self.old.bytes.now self.old.at }
        ensures after { self.new.at ≡ next_of self.old.bytes.now self.old.at }
        ensures line { self.new.bytes ≡ self.old.bytes }
    {
        let token = tokens::token(self.bytes, self.at);
        // (`tokens::next` would go over the token again.)
        let end = self.at + token.len();
        self.at = if end < self.bytes.len() {
            end + 1
        } else {
            self.bytes.len() + 1
        };
        token
    }

    // Whether every token is taken.
    #[tactic(auto, unfolding(crate::specs::Lines::at_end))]
    pub fn ended(&self) -> bool
        ensures { result ≡ at_end self.now.bytes.now self.now.at }
    {
        tokens::ended(self.bytes, self.at)
    }

    // Nothing else stands in the line.
    #[tactic(auto, unfolding(crate::specs::Lines::held))]
    pub fn end(&self) -> Result<(), Fault>
        ensures { result ≡ held (at_end self.now.bytes.now self.now.at) }
    {
        if !self.ended() {
            return Err(Fault::Bad);
        }
        Ok(())
    }

    // Takes a word, if it comes next.
    pub fn took(&mut self, word: &[u8]) -> bool
        ensures value { result ≡ same_bytes (token_at self.old.bytes.now self.old.at) word.now }
        ensures after { self.new.at ≡ past_if result self.old.bytes.now self.old.at }
        ensures line { self.new.bytes ≡ self.old.bytes }
    {
        let mut line = *self;
        let is = tokens::is(line.next(), word);
        if is {
            *self = line;
        }
        is
    }

    // Takes a word, which has to come next.
    #[tactic(auto, unfolding(crate::specs::Lines::held))]
    pub fn word(&mut self, word: &[u8]) -> Result<(), Fault>
        ensures value { result ≡ held (same_bytes (token_at self.old.bytes.now self.old.at) word.now) }
        ensures after { self.new.at ≡ past_if (same_bytes (token_at self.old.bytes.now self.old.at) word.now) self.old.bytes.now self.old.at }
        ensures line { self.new.bytes ≡ self.old.bytes }
    {
        if !self.took(word) {
            return Err(Fault::Bad);
        }
        Ok(())
    }

    // A number of 32 bits.
    #[tactic(auto, unfolding(crate::specs::Lines::given))]
    pub fn number(&mut self) -> Result<u32, Fault>
        ensures value { result ≡ given (small_of (token_at self.old.bytes.now self.old.at)) }
        ensures after { self.new.at ≡ next_of self.old.bytes.now self.old.at }
        ensures line { self.new.bytes ≡ self.old.bytes }
    {
        numbers::read_small(self.next()).ok_or(Fault::Bad)
    }

    // A number of 32 bits, and nothing behind it.
    #[tactic(auto, unfolding(crate::specs::Lines::alone, crate::specs::Lines::given, crate::specs::Lines::held))]
    pub fn last_number(mut self) -> Result<u32, Fault>
        ensures { result ≡ alone self.entry.bytes.now self.entry.at (small_of (token_at self.entry.bytes.now self.entry.at)) }
    {
        let n = self.number()?;
        self.end()?;
        Ok(n)
    }

    // A number of 64 bits.
    #[tactic(auto, unfolding(crate::specs::Lines::given))]
    pub fn wide(&mut self) -> Result<u64, Fault>
        ensures value { result ≡ given (number_of 20 18446744073709551615 (token_at self.old.bytes.now self.old.at)) }
        ensures after { self.new.at ≡ next_of self.old.bytes.now self.old.at }
        ensures line { self.new.bytes ≡ self.old.bytes }
    {
        numbers::read_wide(self.next()).ok_or(Fault::Bad)
    }

    // A number of 64 bits, and nothing behind it.
    #[tactic(auto, unfolding(crate::specs::Lines::alone, crate::specs::Lines::given, crate::specs::Lines::held))]
    pub fn last_wide(mut self) -> Result<u64, Fault>
        ensures { result ≡ alone self.entry.bytes.now self.entry.at (number_of 20 18446744073709551615 (token_at self.entry.bytes.now self.entry.at)) }
    {
        let n = self.wide()?;
        self.end()?;
        Ok(n)
    }

    // EXPR, its items in the lent words.
    pub fn expression<'w>(&mut self, words: &'w mut [u64]) -> Result<&'w [u64], Fault> {
        let read = items::read_expression(self.bytes, self.at, words);
        let Read { count, next } = read.ok_or(Fault::Bad)?;
        self.at = next;
        Ok(rows::part(words, count))
    }

    // Takes values, as far as they are read, 16 at most.
    pub fn values(&mut self) -> List<Slot, 16> {
        let list = lists::read_values(self.bytes, self.at);
        self.at = list.next;
        list
    }
}
