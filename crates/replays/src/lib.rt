// Recordings stepped again, on a lent table and a lent state.
#![tactic(auto)]

pub mod answers;
pub mod inner;
pub mod run;
