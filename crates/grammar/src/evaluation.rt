// The value of an expression, or none.
ghost use Rattle.std.specs.Prelude.{◌≡◌};
ghost use Rattle.grammar.specs.Evaluation.{evaluation_of};

use crate::inner::evaluation;
use crate::values::{Slot, Val};

// A value or none, and what is left of the word for the next expression.
#[derive(Clone, Copy)]
pub struct Evaluation {
    pub value: Option<Val>,
    pub rest: u64,
}

// The value of an expression.
pub fn evaluate(items: &[u64], vars: [Slot; 16], word: u64) -> Evaluation
    ensures { result ≡ evaluation_of vars word items.now }
{
    evaluation::evaluate_over(items, vars, word)
}
