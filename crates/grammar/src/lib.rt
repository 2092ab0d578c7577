// The language of guards and effects: values, items, typing and evaluation of postfix expressions.
#![tactic(auto)]

pub mod bits;
pub mod draws;
pub mod evaluation;
pub mod inner;
pub mod items;
pub mod typing;
pub mod values;
pub mod waiting;
