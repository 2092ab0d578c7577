// What a step and a wait of one graph ask, and what they leave.
#![tactic(auto)]

pub mod failures;
pub mod inner;
