// The items of an expression, and the word of each.
ghost use Rattle.std.specs.Prelude.{◌≡◌, ◌<◌};
ghost use Rattle.grammar.specs.Items.{unary_word, binary_word, constant_word, word_of, takes_of, item_of};
ghost use Rattle.grammar.specs.Inner.{row_of, slot_of};

use crate::bits;
use crate::values::Val;

#[derive(Clone, Copy)]
pub enum Unary {
    Not,
    Negate,
}

#[derive(Clone, Copy)]
pub enum Binary {
    And,
    Or,
    Add,
    Subtract,
    Multiply,
    Divide,
    Remainder,
    Equal,
    Less,
    LessOrEqual,
}

#[derive(Clone, Copy)]
pub enum Item {
    Constant(Val),
    Variable(u32),
    Unary(Unary),
    Binary(Binary),
    Draw,
}

// The operations, as the low byte of a word. From TRUTH on there is a payload above it; no item has the number 0.
pub const NOT: u64 = 1;

pub const AND: u64 = 2;

pub const OR: u64 = 3;

pub const NEGATE: u64 = 4;

pub const ADD: u64 = 5;

pub const SUBTRACT: u64 = 6;

pub const MULTIPLY: u64 = 7;

pub const DIVIDE: u64 = 8;

pub const REMAINDER: u64 = 9;

pub const EQUAL: u64 = 10;

pub const LESS: u64 = 11;

pub const LESS_OR_EQUAL: u64 = 12;

pub const DRAW: u64 = 13;

pub const TRUTH: u64 = 14;

pub const NUMBER: u64 = 15;

pub const VARIABLE: u64 = 16;

impl Unary {
    pub fn word(self) -> u64
        ensures { result ≡ unary_word self }
    {
        match self {
            Unary::Not => NOT,
            Unary::Negate => NEGATE,
        }
    }
}

impl Binary {
    pub fn word(self) -> u64
        ensures { result ≡ binary_word self }
    {
        match self {
            Binary::And => AND,
            Binary::Or => OR,
            Binary::Add => ADD,
            Binary::Subtract => SUBTRACT,
            Binary::Multiply => MULTIPLY,
            Binary::Divide => DIVIDE,
            Binary::Remainder => REMAINDER,
            Binary::Equal => EQUAL,
            Binary::Less => LESS,
            Binary::LessOrEqual => LESS_OR_EQUAL,
        }
    }
}

fn constant_word(v: Val) -> u64
    ensures { result ≡ constant_word v }
{
    match v {
        Val::Boolean(b) => { if b { 256 + TRUTH } else { TRUTH } }
        Val::Integer(n) => (bits::bits_of(n) as u64) * 256 + NUMBER,
    }
}

impl Item {
    // The word of an item.
    pub fn word(self) -> u64
        ensures { result ≡ word_of self }
    {
        match self {
            Item::Constant(v) => constant_word(v),
            Item::Variable(n) => (n as u64) * 256 + VARIABLE,
            Item::Unary(u) => u.word(),
            Item::Binary(b) => b.word(),
            Item::Draw => DRAW,
        }
    }
}

// Row w of a table of the operations: two bits a row, from the lowest on. (An array would be laid out anew at each read.)
pub(crate) fn row(table: u64, w: u64) -> u64
    requires { w < 14 }
    ensures { result ≡ row_of table w }
{
    (table >> (2 * w)) % 4
}

// How many operands each takes: 0 1 2 2 1 2 2 2 2 2 2 2 2 0.
const TAKES: u64 = 44738980;

// How many operands the item of a word takes.
pub(crate) fn takes(w: u64) -> usize
    ensures { result ≡ takes_of (item_of w) }
{
    if w < TRUTH {
        return row(TAKES, w) as usize;
    }
    0
}

// The slot of the variable that a word names; the first where it names none.
pub(crate) fn slot(w: u64) -> usize
    ensures { result ≡ slot_of w }
{
    let n = w / 256;
    if n < 16 {
        return n as usize;
    }
    0
}
