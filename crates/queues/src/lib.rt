// One channel's queue in lent words: a ring of values, and above this crate a list.
#![tactic(auto)]

pub mod inner;
pub mod layout;
