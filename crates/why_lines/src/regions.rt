// The regions of a system's table that the explainer is lent, copied.
use explainer::layout;
use graph_tables::layout::{GUARDS_START, LIMITS_START};
use system_tables::inner::words;
use system_tables::sizes;
use text::rows;

// Words of one slice from a place on, to a place of another, as far as both reach.
fn copy_region(to: &mut [u64], at: usize, from: &[u64], start: usize, n: usize) {
    if to.len() < at {
        return;
    }
    if from.len() < start {
        return;
    }
    let part = rows::part(&from[start..], n);
    for (word, &read) in to[at..].iter_mut().zip(part) {
        *word = read;
    }
}

// The guards' items of every graph, and its limits.
pub fn copy_tables(t: &[u64], guards: &mut [u64], limits: &mut [u64]) {
    if t.len() != sizes::WORDS {
        return;
    }
    for g in 0usize..sizes::GRAPHS {
        let graph = words::graph_at(t, g);
        let items = layout::GUARD_WORDS;
        copy_region(guards, items * g, graph, GUARDS_START, items);
        let bounds = layout::LIMIT_WORDS;
        copy_region(limits, bounds * g, graph, LIMITS_START, bounds);
    }
}
