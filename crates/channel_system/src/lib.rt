// A channel system that is run, on a lent table and a lent state.
#![tactic(auto)]

pub mod answers;
pub mod inner;
pub mod readers;
pub mod run;
pub mod transitions;
