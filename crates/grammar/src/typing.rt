// The kind of an expression, or the refusal.
ghost use Rattle.std.specs.Prelude.{◌≡◌, [], ℕ, ◌*◌, ◌/◌, ◌%◌, ◌≤◌, max, length};
ghost use Rattle.grammar.specs.Items.{operand_of, deepest};
ghost use Rattle.grammar.specs.Draws.{draws_of};
ghost use Rattle.grammar.specs.Run.{gives, run_of};
ghost use Rattle.grammar.specs.Typing.{number_of, too_long, too_deep, kinded, kinded_as, is_typed, typed_as, kinded_at, variable_kind};
ghost use Rattle.grammar.specs.Typing.{kind_steps, judged, type_of, judged_of};
ghost use Rattle.grammar.specs.Inner.{kinded_word, operand_kind, code_of, typed_in};

use crate::items;
use crate::values::Type;
use crate::waiting::Waiting;

// Not a `Result`: a refusal may have a kind too, `TooDeep`, so that `has_kind`, `kinded_as` and `number` would each look into `Ok` and `Err`.
#[derive(Clone, Copy, Debug, PartialEq, Eq)]
pub enum Typed {
    Known(Type),
    // 6
    IllTyped,
    // 28: it has too many items.
    TableFull,
    // 28, and last: it has this kind, but too many operands wait.
    TooDeep(Type),
}

// The kind or the refusal, and, of an expression that has a kind, the number of its draws.
#[derive(Clone, Copy)]
pub struct Judged {
    pub typed: Typed,
    pub draws: usize,
}

impl Typed {
    // The number of the refusal; 0 for a kind.
    pub fn number(self) -> u32
        ensures { result ≡ number_of self }
    {
        match self {
            Typed::Known(_) => 0,
            Typed::IllTyped => 6,
            Typed::TableFull | Typed::TooDeep(_) => 28,
        }
    }

    // It has more than 64 items.
    pub fn too_long(self) -> bool
        ensures { result ≡ too_long self }
    {
        matches!(self, Typed::TableFull)
    }

    // More than 16 operands wait.
    pub fn too_deep(self) -> bool
        ensures { result ≡ too_deep self }
    {
        matches!(self, Typed::TooDeep(_))
    }

    // It has a kind, however many operands wait.
    pub fn has_kind(self) -> bool
        ensures { result ≡ kinded self }
    {
        matches!(self, Typed::Known(_) | Typed::TooDeep(_))
    }

    // Its kind, however many operands wait, is that of the word.
    pub fn kinded_as(self, w: u64) -> bool
        ensures { result ≡ kinded_as w self }
    {
        match self {
            Typed::Known(k) | Typed::TooDeep(k) => k.word() == w,
            Typed::IllTyped | Typed::TableFull => false,
        }
    }

    // It is well typed.
    pub fn is_typed(self) -> bool
        ensures { result ≡ is_typed self }
    {
        matches!(self, Typed::Known(_))
    }

    // It is well typed, of the kind of the word.
    pub fn typed_as(self, w: u64) -> bool
        ensures { result ≡ typed_as w self }
    {
        match self {
            Typed::Known(k) => k.word() == w,
            _ => false,
        }
    }
}

// The most items of an expression, and the most operands that may wait.
pub const MOST_ITEMS: usize = 64;

pub const MOST_OPERANDS: usize = 16;

// The kind of a word that is an operand, or none. As an `Option<Type>` it misses the bar of speed: 209 instructions a pass for 199, at 7 items.
const BOOLEAN: u8 = 0;

const INTEGER: u8 = 1;

const ILL: u8 = 2;

// The answer as one number, which callers take apart where they need it: 8 for each draw, 2 where too many operands waited, and
// the kind; or one of these.
const ILL_TYPED: u64 = 4;

const TABLE_FULL: u64 = 5;

fn variable_kind(kinds: &[u64], n: u64) -> u8
    ensures { result ≡ kinded_word (variable_kind kinds.now n) }
{
    let i = n as usize;
    if i < kinds.len() {
        let k = kinds[i];
        if k == 0 {
            return BOOLEAN;
        }
        if k == 1 {
            return INTEGER;
        }
    }
    ILL
}

// The kind of a constant's or a variable's word.
fn constant_kind(kinds: &[u64], w: u64) -> u8
    ensures { result ≡ kinded_word (operand_kind kinds.now (operand_of (w % 256) (w / 256))) }
{
    let op = w % 256;
    let payload = w / 256;
    match op {
        items::TRUTH => { if payload < 2 { BOOLEAN } else { ILL } }
        items::NUMBER => { if payload < 4294967296 { INTEGER } else { ILL } }
        items::VARIABLE => variable_kind(kinds, payload),
        _ => ILL,
    }
}

// An expression that is well typed: too many operands waited, or not.
fn coded(most: usize, kind: u64, draws: u64) -> u64
    requires { (kind ≤ 1) × (draws ≤ 512) }
    ensures { (n : ℕ) → draws ≡ 8 * n → result ≡ code_of (judged (gives (kinded_at kind)) most) n }
{
    if MOST_OPERANDS < most {
        return draws + kind + 2;
    }
    draws + kind
}

// One pass: the operands that wait, the most that did, and the draws. Only operands can make more wait than before.
fn code_of_run(items: &[u64], kinds: &[u64]) -> u64
    requires { length items.now ≤ 64 }
    ensures { result
        ≡ code_of (judged (run_of (kind_steps kinds.now items.now) []) (deepest items.now 0))
        (draws_of items.now) }
{
    let mut depth: usize = 0;
    let mut integers: u64 = 0;
    let mut most: usize = 0;
    let mut draws: u64 = 0;
    for &w in items {
        if w < items::DRAW {
            let next = Waiting { depth, integers }.operated(w);
            depth = next.depth;
            integers = next.integers;
            if depth == 0 {
                return ILL_TYPED;
            }
            continue;
        }
        let kind = constant_kind(kinds, w);
        if kind < ILL {
            integers = 2 * integers + kind as u64;
            depth += 1;
            most = most.max(depth);
            continue;
        }
        if w != items::DRAW {
            return ILL_TYPED;
        }
        integers = 2 * integers;
        depth += 1;
        most = most.max(depth);
        draws += 8;
    }
    if depth != 1 {
        return ILL_TYPED;
    }
    coded(most, integers, draws)
}

fn code_of(items: &[u64], kinds: &[u64]) -> u64
    ensures { result ≡ code_of (type_of kinds.now items.now) (draws_of items.now) }
{
    if MOST_ITEMS < items.len() {
        return TABLE_FULL;
    }
    code_of_run(items, kinds)
}

// The kind or the refusal in the answer as one number.
fn typed_in(code: u64) -> Typed
    ensures { result ≡ typed_in code }
{
    let answer = code % 8;
    match answer {
        0 => Typed::Known(Type::Boolean),
        1 => Typed::Known(Type::Integer),
        2 => Typed::TooDeep(Type::Boolean),
        3 => Typed::TooDeep(Type::Integer),
        ILL_TYPED => Typed::IllTyped,
        _ => Typed::TableFull,
    }
}

// The kind of an expression over variables of these kinds, and its draws.
pub fn judge(items: &[u64], kinds: &[u64]) -> Judged
    ensures { result ≡ judged_of kinds.now items.now }
{
    let code = code_of(items, kinds);
    Judged {
        typed: typed_in(code),
        draws: (code / 8) as usize,
    }
}

// The kind of an expression over variables of these kinds.
pub fn type_of(items: &[u64], kinds: &[u64]) -> Typed
    ensures { result ≡ type_of kinds.now items.now }
{
    typed_in(code_of(items, kinds))
}
