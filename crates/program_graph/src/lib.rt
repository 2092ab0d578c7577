// Running one program graph on a lent table.
#![tactic(auto)]

pub mod answers;
pub mod inner;
pub mod record;
pub mod run;
pub mod transitions;
