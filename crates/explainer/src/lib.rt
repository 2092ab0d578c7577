// Why a plain step of a system answered 8: the cause, and the part of two lent tables that fails.
#![tactic(auto)]

pub mod causes;
pub mod inner;
pub mod layout;
pub mod why;
