// The calls of graphs and systems for C: numbers and slices alone. include/njunnemar.h declares each, and says what it answers. Each hands
// its arguments on to the function of that name in crate `export`, under the same clauses.
// They are the C interface (include/njunnemar.h), so their names, parameters and numbers stay as C has them.
#![tactic(auto)]

pub mod building;
pub mod graphs;
pub mod reasons;
pub mod replaying;
pub mod running;
pub mod runs;
pub mod sizes;
pub mod systems;
pub mod writing;
