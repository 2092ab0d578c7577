// The calls of graphs and systems over numbers and slices alone: what crate `export_c` hands to C.
// The functions with C names are the C interface: flags, counts, numbers for refusals and words for values stay as C has them. Each tests first
// whether its result has room, in two lines, and only then calls, so that a call without room changes nothing.
#![tactic(auto, unfolding(c_words::specs::Given::answering, laws::specs::Ladder::unless))]

pub mod building;
pub mod graphs;
pub mod reasons;
pub mod replaying;
pub mod running;
pub mod runs;
pub mod sizes;
pub mod systems;
pub mod writing;
