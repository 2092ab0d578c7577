// Whether the lent tables are the built ones, in every used word.
ghost use Rattle.std.specs.Prelude.{◌≡◌, ◌≤◌, ◌<◌, length};
ghost use Rattle.laws.specs.Below.{all_below};
ghost use Rattle.graph_tables.specs.Sizes.{transition_room, group_room, limit_room};
ghost use Rattle.graph_tables.specs.Words.{transition_count, location_count};
ghost use Rattle.graph_tables.specs.Sound.{Sound};
ghost use Rattle.system_tables.specs.Sizes.{graph_room};
ghost use Rattle.system_tables.specs.Words.{graph_count};
ghost use Rattle.system_tables.specs.Sound.{SystemSound};
ghost use Rattle.explainer.specs.Layout.{all_guards, all_limits, guard_at, group_at};
ghost use Rattle.explainer.specs.Same.{all_same, guard_same, limits_same, transition_same, location_same, graph_same, tables_same};

use crate::layout;
use graph_tables::inner::places;
use graph_tables::layout::{GROUP_WIDTH, LIMIT_WIDTH};
use graph_tables::{inner, sizes};
use system_tables::inner::words;

// Where the items of a guard of graph g start, and the limits of a group.
pub fn guard_at(g: usize, k: usize) -> usize
    requires { (g < graph_room) × (k < transition_room) }
    ensures { result ≡ guard_at g k }
{
    layout::GUARD_WORDS * g + sizes::ITEMS * k
}

pub fn group_at(g: usize, group: usize) -> usize
    requires { (g < graph_room) × (group < group_room) }
    ensures { result ≡ group_at g group }
{
    layout::LIMIT_WORDS * g + GROUP_WIDTH * group
}

// Two slices of a length have the same words.
fn all_same(xs: &[u64], ys: &[u64]) -> bool
    requires { length xs.now ≡ length ys.now }
    ensures { result ≡ all_same xs.now ys.now }
{
    xs == ys
}

// The guard of transition k.
fn guard_same(t: &[u64], guards: &[u64], g: usize, k: usize) -> bool
    requires { Sound t.now × (length guards.now ≡ all_guards) × (g < graph_room) × (k < transition_count t.now) }
    ensures { result ≡ guard_same t.now guards.now g k }
{
    let from = guard_at(g, k);
    let to = from + inner::guard_length(t, k);
    all_same(&guards[from..to], inner::guard_items(t, k))
}

// The n limits of a group.
fn limits_same(t: &[u64], limits: &[u64], g: usize, group: usize, n: usize) -> bool
    requires { Sound t.now × (length limits.now ≡ all_limits) × (g < graph_room) × (group < group_room) × (n ≤ limit_room) }
    ensures { result ≡ limits_same t.now limits.now g group n }
{
    let from = group_at(g, group);
    let to = from + LIMIT_WIDTH * n;
    let built = places::group_start(group);
    let end = built + LIMIT_WIDTH * n;
    all_same(&limits[from..to], &t[built..end])
}

// The guard and the limits of transition k.
fn transition_same(t: &[u64], guards: &[u64], limits: &[u64], g: usize, k: usize) -> bool
    requires { Sound t.now × (length guards.now ≡ all_guards) × (length limits.now ≡ all_limits) × (g < graph_room)
        × (k < transition_count t.now) }
    ensures { result ≡ transition_same t.now guards.now limits.now g k }
{
    if !guard_same(t, guards, g, k) {
        return false;
    }
    limits_same(t, limits, g, k, inner::limit_count(t, k))
}

// The invariants of location l.
fn location_same(t: &[u64], limits: &[u64], g: usize, l: usize) -> bool
    requires { Sound t.now × (length limits.now ≡ all_limits) × (g < graph_room) × (l < location_count t.now) }
    ensures { result ≡ location_same t.now limits.now g l }
{
    limits_same(
        t,
        limits,
        g,
        inner::invariant_group(l),
        inner::invariant_count(t, l),
    )
}

fn transitions_same(t: &[u64], guards: &[u64], limits: &[u64], g: usize) -> bool
    requires { Sound t.now × (length guards.now ≡ all_guards) × (length limits.now ≡ all_limits) × (g < graph_room) }
    ensures { result
        ≡ all_below (transition_count t.now) (transition_same t.now guards.now limits.now g) }
{
    (0..inner::transition_count(t)).all(|k| transition_same(t, guards, limits, g, k))
}

fn locations_same(t: &[u64], limits: &[u64], g: usize) -> bool
    requires { Sound t.now × (length limits.now ≡ all_limits) × (g < graph_room) }
    ensures { result ≡ all_below (location_count t.now) (location_same t.now limits.now g) }
{
    (0..inner::location_count(t)).all(|l| location_same(t, limits, g, l))
}

// All of graph g.
fn graph_same(t: &[u64], guards: &[u64], limits: &[u64], g: usize) -> bool
    requires { SystemSound t.now × (length guards.now ≡ all_guards) × (length limits.now ≡ all_limits) × (g < graph_count t.now) }
    ensures { result ≡ graph_same t.now guards.now limits.now g }
{
    let graph = words::graph_at(t, g);
    if !transitions_same(graph, guards, limits, g) {
        return false;
    }
    locations_same(graph, limits, g)
}

fn graphs_same(t: &[u64], guards: &[u64], limits: &[u64]) -> bool
    requires { SystemSound t.now × (length guards.now ≡ all_guards) × (length limits.now ≡ all_limits) }
    ensures { result ≡ all_below (graph_count t.now) (graph_same t.now guards.now limits.now) }
{
    (0..words::graph_count(t)).all(|g| graph_same(t, guards, limits, g))
}

// Both tables have their length, and every used word is the built one.
pub fn tables_same(t: &[u64], guards: &[u64], limits: &[u64]) -> bool
    requires { SystemSound t.now }
    ensures { result ≡ tables_same t.now guards.now limits.now }
{
    if guards.len() != layout::ALL_GUARDS {
        return false;
    }
    if limits.len() != layout::ALL_LIMITS {
        return false;
    }
    graphs_same(t, guards, limits)
}
