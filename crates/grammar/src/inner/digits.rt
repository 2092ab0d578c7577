// Whether an expression is well typed, of which kind, and how many draws it has: one pass, one number. What is refused is not told
// apart: `typing` does that.
//
// The operands that wait are one number too: a digit to base 4 for each, the last the lowest: 1 for a boolean, 2 for an integer.
ghost use Rattle.std.specs.Prelude.{◌≡◌, List, [], ℕ, ◌+◌, ◌≤◌, ◌<◌, ◌/◌, ◌%◌, eqb, ltb, length, get_or, take, drop};
ghost use Rattle.laws.specs.Below.{◌and◌};
ghost use Rattle.grammar.specs.Items.{item_of};
ghost use Rattle.grammar.specs.Run.{change, join};
ghost use Rattle.grammar.specs.Typing.{takes1, takes2, alike, kind_step};
ghost use Rattle.grammar.specs.declared.values.«Type».{«Type» as Kind};
ghost use Rattle.grammar.specs.declared.values.«Type».TheVariants.{Boolean, Integer};
ghost use Rattle.grammar.specs.Inner.{digits_of, left_of, known_in, is_of, is_known, draws_told, guards_of};

use crate::items;

// The answer for an expression that is not well typed. 0 is that of no items; else it is 4 for each draw, and the digit of the kind.
pub const REFUSED: u64 = 3;

// The least number of 16 operands that wait.
const FULL: u64 = 1073741824;

// + - * / %
fn arithmetic(waiting: u64) -> u64
    ensures { (ks : List Kind) → waiting ≡ digits_of ks → result ≡ left_of (join (takes2 Integer Integer)) ks }
{
    if waiting % 16 != 10 {
        return 0;
    }
    waiting / 4
}

// and, or
fn logic(waiting: u64) -> u64
    ensures { (ks : List Kind) → waiting ≡ digits_of ks → result ≡ left_of (join (takes2 Boolean Boolean)) ks }
{
    if waiting % 16 != 5 {
        return 0;
    }
    waiting / 4
}

// = < and <=
fn comparison(w: u64, waiting: u64) -> u64
    requires { (10 ≤ w) × (w < 13) }
    ensures { (ks : List Kind) → waiting ≡ digits_of ks → result ≡ left_of (kind_step [] (item_of w)) ks }
{
    if waiting % 16 == 10 {
        return waiting / 4 - 1;
    }
    if w != items::EQUAL {
        return 0;
    }
    logic(waiting)
}

fn negate(waiting: u64) -> u64
    ensures { (ks : List Kind) → waiting ≡ digits_of ks → result ≡ left_of (change (takes1 Integer Integer)) ks }
{
    if waiting % 4 != 2 {
        return 0;
    }
    waiting
}

fn not(waiting: u64) -> u64
    ensures { (ks : List Kind) → waiting ≡ digits_of ks → result ≡ left_of (change (takes1 Boolean Boolean)) ks }
{
    if waiting % 4 != 1 {
        return 0;
    }
    waiting
}

// not, and, or, negate; no item has the number 0
fn low(w: u64, waiting: u64) -> u64
    requires { w < 5 }
    ensures { (ks : List Kind) → waiting ≡ digits_of ks → result ≡ left_of (kind_step [] (item_of w)) ks }
{
    if w == items::NEGATE {
        return negate(waiting);
    }
    if w == items::NOT {
        return not(waiting);
    }
    if w == 0 {
        return 0;
    }
    logic(waiting)
}

// What the operation of a word leaves, 0 where it does not fit.
fn operated(w: u64, waiting: u64) -> u64
    requires { w < 13 }
    ensures { (ks : List Kind) → waiting ≡ digits_of ks → result ≡ left_of (kind_step [] (item_of w)) ks }
{
    if w < items::ADD {
        return low(w, waiting);
    }
    if w < items::EQUAL {
        return arithmetic(waiting);
    }
    comparison(w, waiting)
}

fn number(w: u64) -> bool
    ensures { result ≡ (eqb (w % 256) 15 and ltb (w / 256) 4294967296) }
{
    if w % 256 != items::NUMBER {
        return false;
    }
    w / 256 < 4294967296
}

fn truth(w: u64) -> bool
    ensures { result ≡ (eqb (w % 256) 14 and ltb (w / 256) 2) }
{
    if w % 256 != items::TRUTH {
        return false;
    }
    w / 256 < 2
}

// The n words from a place on as an expression, over variables whose kinds stand in the same words, from another place on.
pub fn known_in(words: &[u64], from: usize, n: usize, kinds: usize, count: usize) -> u64
    requires { (n ≤ 64) × (from + n ≤ length words.now) × (kinds + count ≤ length words.now)
        × ((v : ℕ) → v < count → get_or words.now (kinds + v) 0 < 2) }
    ensures { result ≡ known_in (take count (drop kinds words.now)) (take n (drop from words.now)) }
{
    let mut waiting: u64 = 0;
    let mut draws: u64 = 0;
    let end = from + n;
    for at in from..end {
        let w = words[at];
        if w < items::DRAW {
            waiting = operated(w, waiting);
            if waiting == 0 {
                return REFUSED;
            }
            continue;
        }
        if FULL <= waiting {
            return REFUSED;
        }
        if w % 256 == items::VARIABLE {
            let v = (w / 256) as usize;
            if count <= v {
                return REFUSED;
            }
            waiting = 4 * waiting + words[kinds + v] + 1;
            continue;
        }
        if number(w) {
            waiting = 4 * waiting + 2;
            continue;
        }
        waiting = 4 * waiting + 1;
        if w == items::DRAW {
            draws += 4;
            continue;
        }
        if !truth(w) {
            return REFUSED;
        }
    }
    if 2 < waiting {
        return REFUSED;
    }
    draws + waiting
}

// What that number says: a kind, any kind, how many draws; and that it will do for a guard: no items, or a boolean without draws.
pub fn is_of(known: u64, kind: u64) -> bool
    requires { kind < 2 }
    ensures { result ≡ is_of known kind }
{
    known % 4 == kind + 1
}

pub fn is_known(known: u64) -> bool
    ensures { result ≡ is_known known }
{
    if known == 0 {
        return false;
    }
    known % 4 != REFUSED
}

pub fn draws_in(known: u64) -> usize
    ensures { result ≡ draws_told known }
{
    (known / 4) as usize
}

pub fn guards(known: u64) -> bool
    ensures { result ≡ guards_of known }
{
    known < 2
}
