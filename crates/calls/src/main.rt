// Answers lines, each by the public call that it names. It holds one graph, in a lent table, and one run of it; and one system,
// in a lent table of its own, with its state.
#![tactic(auto)]

mod answers;
mod expressions;
mod lines;
mod tables;

use program_graph::inner::fresh;
use std::io;

fn main(rt: HostRuntime) -> io::Result<()> {
    let mut t = [0u64; graph_tables::sizes::WORDS];
    let mut s = [0u64; system_tables::sizes::WORDS];
    let mut state = [0u64; system_state::layout::WORDS];
    let mut guards = [0u64; explainer::layout::ALL_GUARDS];
    let mut limits = [0u64; explainer::layout::ALL_LIMITS];
    let mut line = [0u8; text::lines::ROOM];
    let mut run = fresh::no_run();
    lines::answer_all(
        &rt,
        &mut line,
        &mut t,
        &mut run,
        &mut s,
        &mut state,
        &mut guards,
        &mut limits,
    )
}
