// Lists of tokens of one kind, up to a token that is none of it; and kinds, a token with a letter for each.
use crate::inner::read_list;
use crate::{numbers, tokens, values};
use grammar::values::{Slot, Val};

// Items, how many there are, and where the token after them starts. What is past them is what it was made of.
#[derive(Clone, Copy)]
pub struct List<T, const N: usize> {
    pub items: [T; N],
    pub count: usize,
    pub next: usize,
}

fn read_slot(token: &[u8]) -> Option<Slot> {
    let value = values::read_value(token)?;
    Some(Slot { value })
}

// The values from a place on, 16 at most. The slots past them are false.
pub fn read_values(line: &[u8], at: usize) -> List<Slot, 16> {
    let blank = Slot {
        value: Val::Boolean(false),
    };
    read_list(line, at, blank, read_slot)
}

// The numbers from a place on, 8 at most.
pub fn read_numbers(line: &[u8], at: usize) -> List<u32, 8> {
    read_list(line, at, 0, numbers::read_small)
}

// The words of a token's kinds in the lent ones: it has as many at most. `-` stands for none.
pub fn read_kinds(token: &[u8], words: &mut [u64]) -> Option<usize> {
    if tokens::is(token, b"-") {
        return Some(0);
    }
    if token.is_empty() {
        return None;
    }
    if words.len() < token.len() {
        return None;
    }
    for (word, &letter) in words.iter_mut().zip(token) {
        *word = values::kind(letter)?;
    }
    Some(token.len())
}
