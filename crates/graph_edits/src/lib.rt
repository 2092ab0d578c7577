// A part more in a graph's table: every change of its words. Each asks for a table that has room for the part.
#![tactic(auto)]

pub mod inner;
