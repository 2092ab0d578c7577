// Lines that build: one graph, or a system with its channels and graphs. Each is answered by the public call that it names.
#![tactic(auto)]

mod builders;
mod building;
mod capacities;
mod channels;
pub mod graph;
mod messages;
pub mod system;
mod transitions;
