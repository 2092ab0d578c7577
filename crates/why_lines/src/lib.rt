// Lines on the cause of an 8. The two tables that are lent are a system's own regions, copied when its state is made.
#![tactic(auto)]

mod answers;
mod items;
pub mod regions;
pub mod why;
