// The words of a channel system's state, and the test of a state that is handed in.
#![tactic(auto)]

pub mod inner;
pub mod layout;
