// Calls on a table and a state that are known to fit.
pub mod cause;
pub mod found;
pub mod same;
