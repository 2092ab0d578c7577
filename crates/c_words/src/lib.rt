// What C hands over and what it is told, in words: between the numbers of C and the values of the calls.
#![tactic(auto)]

pub mod inner;
