// The loop of the evaluation, and the operations on operands that wait.
ghost use Rattle.std.specs.Prelude.{◌≡◌, List, get_or, cond, [], ◌/◌, ◌%◌, ◌<◌, eqb, ltb, length};
ghost use Rattle.std.proofs.Math.IntN.{sub_ℕ};
ghost use Rattle.grammar.specs.Bits.{from_bits};
ghost use Rattle.grammar.specs.Items.{item_of, operand_of};
ghost use Rattle.grammar.specs.Run.{made};
ghost use Rattle.grammar.specs.Arith.{fitted, product_of, quotient_of, remainder_of};
ghost use Rattle.grammar.specs.Evaluation.{blank, unary_of, value_step, evaluation_of};
ghost use Rattle.grammar.specs.Slots.{slots_of};
ghost use Rattle.grammar.specs.declared.values.Slot.{Slot};
ghost use Rattle.grammar.specs.Inner.{slot_of, operates_of, whole_of, held_of, values_on, binary_on, operand_on, no_value_of};

use crate::evaluation::Evaluation;
use crate::inner::slots;
use crate::items::Unary;
use crate::values::{Slot, Val};
use crate::{bits, draws, items};

// An operand waits as one number: an integer z as z + 2147483648, below FALSE; a boolean as FALSE or TRUE. Any other has no value.
const FALSE: u64 = 4294967296;

const TRUE: u64 = 4294967297;

const NONE: u64 = 8589934592;

fn boolean(b: bool) -> u64
    ensures { held_of result ≡ Some (Val.Boolean b) }
{
    if b { TRUE } else { FALSE }
}

fn integer(n: i32) -> u64
    ensures { held_of result ≡ Some (Val.Integer n) }
{
    (n as i64 + 2147483648) as u64
}

fn of_value(v: Val) -> u64
    ensures { held_of result ≡ Some v }
{
    match v {
        Val::Boolean(b) => boolean(b),
        Val::Integer(n) => integer(n),
    }
}

// The integer that waits.
fn whole(x: u64) -> i32
    requires { x < 4294967296 }
    ensures { result ≡ whole_of x }
{
    (x as i64 - 2147483648) as i32
}

// The value that waits.
fn held(x: u64) -> Option<Val>
    ensures { result ≡ held_of x }
{
    if x < FALSE {
        return Some(Val::Integer(whole(x)));
    }
    match x {
        FALSE => Some(Val::Boolean(false)),
        TRUE => Some(Val::Boolean(true)),
        _ => None,
    }
}

// The integer z where it has 32 bits, from z + 4294967296.
fn within(s: u64) -> u64
    ensures { held_of result ≡ fitted (sub_ℕ s 4294967296) }
{
    if s < 2147483648 {
        return NONE;
    }
    if 6442450944 <= s {
        return NONE;
    }
    s - 2147483648
}

// The integer where it has 32 bits.
fn in_range(z: i64) -> u64
    ensures { held_of result ≡ fitted z }
{
    if z < -2147483648 {
        return NONE;
    }
    if 2147483647 < z {
        return NONE;
    }
    integer(z as i32)
}

// These are exact at 64 bits.
fn product(a: i32, b: i32) -> u64
    ensures { held_of result ≡ product_of a b }
{
    let x = a as i64;
    let y = b as i64;
    in_range(x * y)
}

fn quotient(a: i32, b: i32) -> u64
    ensures { held_of result ≡ quotient_of a b }
{
    let x = a as i64;
    let y = b as i64;
    if y == 0 {
        return NONE;
    }
    in_range(x / y)
}

fn remainder(a: i32, b: i32) -> u64
    ensures { held_of result ≡ remainder_of a b }
{
    let x = a as i64;
    let y = b as i64;
    if y == 0 {
        return NONE;
    }
    in_range(x % y)
}

// The operation of a word on two integers that wait.
fn integers(w: u64, x: u64, y: u64) -> u64
    requires x_bound { x < 4294967296 }
    requires y_bound { y < 4294967296 }
    ensures { held_of result ≡ values_on (item_of w) (Val.Integer (whole_of x)) (Val.Integer (whole_of y)) }
{
    match w {
        items::ADD => within(x + y),
        items::SUBTRACT => within(x + 4294967296 - y),
        items::MULTIPLY => product(whole(x), whole(y)),
        items::DIVIDE => quotient(whole(x), whole(y)),
        items::REMAINDER => remainder(whole(x), whole(y)),
        items::EQUAL => boolean(x == y),
        items::LESS => boolean(x < y),
        items::LESS_OR_EQUAL => boolean(x <= y),
        _ => NONE,
    }
}

fn booleans(w: u64, a: bool, b: bool) -> u64
    ensures { held_of result ≡ values_on (item_of w) (Val.Boolean a) (Val.Boolean b) }
{
    match w {
        items::AND => boolean(a & b),
        items::OR => boolean(a | b),
        items::EQUAL => boolean(a == b),
        _ => NONE,
    }
}

// The operation of a word on two operands, which have to be of one kind.
fn binary(w: u64, a: u64, b: u64) -> u64
    ensures { held_of result ≡ binary_on (item_of w) (held_of a) (held_of b) }
{
    if a < FALSE {
        if b < FALSE {
            return integers(w, a, b);
        }
        return NONE;
    }
    if b < FALSE {
        return NONE;
    }
    if TRUE < a {
        return NONE;
    }
    if TRUE < b {
        return NONE;
    }
    booleans(w, a == TRUE, b == TRUE)
}

fn not(a: u64) -> u64
    ensures { held_of result ≡ unary_of Unary.Not (held_of a) }
{
    match a {
        FALSE => TRUE,
        TRUE => FALSE,
        _ => NONE,
    }
}

fn negate(a: u64) -> u64
    ensures { held_of result ≡ unary_of Unary.Negate (held_of a) }
{
    if a < FALSE {
        return integers(items::SUBTRACT, 2147483648, a);
    }
    NONE
}

// What the operation of a word makes of its operands; a word that is none has no value. Each has an arm, and so code of its own.
fn operation(w: u64, a: u64, b: u64) -> u64
    requires { w < 13 }
    ensures { held_of result ≡ made (value_step [] 0 (item_of w)) (held_of a) (held_of b) }
{
    match w {
        items::NOT => not(a),
        items::NEGATE => negate(a),
        items::AND => binary(items::AND, a, b),
        items::OR => binary(items::OR, a, b),
        items::ADD => binary(items::ADD, a, b),
        items::SUBTRACT => binary(items::SUBTRACT, a, b),
        items::MULTIPLY => binary(items::MULTIPLY, a, b),
        items::DIVIDE => binary(items::DIVIDE, a, b),
        items::REMAINDER => binary(items::REMAINDER, a, b),
        items::EQUAL => binary(items::EQUAL, a, b),
        items::LESS => binary(items::LESS, a, b),
        items::LESS_OR_EQUAL => binary(items::LESS_OR_EQUAL, a, b),
        _ => binary(w, a, b),
    }
}

fn truth(payload: u64) -> u64
    ensures { held_of result ≡ cond (ltb payload 2) (Some (Val.Boolean (eqb payload 1))) None }
{
    if payload < 2 {
        return boolean(payload == 1);
    }
    NONE
}

fn number(payload: u64) -> u64
    ensures { held_of result ≡ cond (ltb payload 4294967296) (Some (Val.Integer (from_bits payload))) None }
{
    if payload < 4294967296 {
        return integer(bits::from_bits(payload as u32));
    }
    NONE
}

// What the variables of an expression hold, in words or by value.
pub(crate) trait Variables {
    ghost slots: { Self → List Slot };

    ghost IsReadable: { Self → Type 0 };

    // The value of the variable that a word names.
    fn operand(&self, w: u64) -> u64
        requires { IsReadable self.now }
        ensures { held_of result ≡ cond (ltb (w / 256) 16) (Some (get_or (slots self.now) (slot_of w) blank).value) None };
}

// A kind and a payload each.
impl Variables for &[u64] {
    ghost slots = { λ vars. slots_of vars.now };

    ghost IsReadable = { λ vars. length vars.now ≡ 32 };

    #[tactic(auto, using(crate::proofs::HeldLaws::absent))]
    fn operand(&self, w: u64) -> u64 {
        if w / 256 < 16 {
            let n = items::slot(w);
            return of_value(slots::value_of(self[2 * n], self[2 * n + 1]));
        }
        NONE
    }
}

impl Variables for [Slot; 16] {
    ghost slots = { λ vars. vars };

    ghost IsReadable = { λ vars. length vars ≡ 16 };

    #[tactic(auto, using(crate::proofs::HeldLaws::absent))]
    fn operand(&self, w: u64) -> u64 {
        if w / 256 < 16 {
            let s = self[items::slot(w)];
            return of_value(s.value);
        }
        NONE
    }
}

// The constant that a word adds, whatever the variables hold: it is not the word of one.
fn constant(w: u64) -> u64
    requires { w % 256 ≡ 16 → ⊥ }
    ensures { (x : Val) → held_of result ≡ operand_on x (w / 256) 0 (operand_of (w % 256) (w / 256)) }
{
    let op = w % 256;
    let payload = w / 256;
    match op {
        items::TRUTH => truth(payload),
        items::NUMBER => number(payload),
        _ => NONE,
    }
}

// Whether a word is an operation.
fn operates(w: u64) -> bool
    ensures { result ≡ operates_of w }
{
    if w == 0 {
        return false;
    }
    w < items::DRAW
}

// What sticks or is too deep has no value, and its draws count all the same.
fn no_value(items: &[u64], word: u64) -> Evaluation
    ensures { result ≡ no_value_of word items.now }
{
    Evaluation {
        value: None,
        rest: draws::rest(items, word),
    }
}

// The value of an expression. The array has a spare slot, which is read and not used where an operation takes one operand.
fn evaluate_by<V: Variables>(items: &[u64], vars: &V, word: u64) -> Evaluation
    requires { V.IsReadable vars.now }
    ensures { result ≡ evaluation_of (V.slots vars.now) word items.now }
{
    let mut stack = [0; 17];
    let mut left = word;
    let mut depth: usize = 0;
    for &w in items {
        if operates(w) {
            let takes = items::takes(w);
            if depth < takes {
                return no_value(items, word);
            }
            let base = depth - takes;
            let a = stack[base];
            let b = stack[base + 1];
            let v = operation(w, a, b);
            stack[base] = v;
            depth = base + 1;
            continue;
        }
        if 16 <= depth {
            return no_value(items, word);
        }
        if w % 256 == items::VARIABLE {
            stack[depth] = vars.operand(w);
            depth += 1;
            continue;
        }
        if w == items::DRAW {
            stack[depth] = boolean(left % 2 == 1);
            left = left / 2;
            depth += 1;
            continue;
        }
        stack[depth] = constant(w);
        depth += 1;
    }
    if depth != 1 {
        return no_value(items, word);
    }
    let last = stack[0];
    Evaluation {
        value: held(last),
        rest: left,
    }
}

// Over variables in words, a kind and a payload each.
pub fn evaluate_on(items: &[u64], vars: &[u64], word: u64) -> Evaluation
    requires { length vars.now ≡ 32 }
    ensures { result ≡ evaluation_of (slots_of vars.now) word items.now }
{
    evaluate_by(items, &vars, word)
}

// Over variables by value.
pub fn evaluate_over(items: &[u64], vars: [Slot; 16], word: u64) -> Evaluation
    ensures { result ≡ evaluation_of vars word items.now }
{
    evaluate_by(items, &vars, word)
}
