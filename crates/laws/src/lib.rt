// Definitions and laws that every crate cites. There is no code here.
#![tactic(auto)]
