// The cause of an 8, on the words of one graph and of its run.
ghost use Rattle.std.specs.Prelude.{◌≡◌, true, ◌<◌, length, get_or};
ghost use Rattle.graph_tables.specs.Sizes.{clock_room};
ghost use Rattle.graph_tables.specs.RunWords.{RunWords, run_processes, clocks_in};
ghost use Rattle.graph_tables.specs.Words.{transition_count, pre_of, action_of, post_of};
ghost use Rattle.graph_tables.specs.Sound.{Sound};
ghost use Rattle.run_steps.specs.Lowest.{lowest};
ghost use Rattle.run_steps.specs.Steps.{failing_of};
ghost use Rattle.run_steps.specs.Listing.{clocks_by};
ghost use Rattle.program_graph.specs.Inner.{run_at, RunOf};
ghost use Rattle.explainer.specs.Cause.{ready_in, unready_of, first_of, number_for, cause_from, cause_of};
ghost use Rattle.explainer.specs.Facts.{Asked};

use crate::causes::{Cause, NO_CANDIDATE};
use graph_tables::{inner, runs, sizes};
use run_steps::failures;
use run_steps::inner::{candidates, limits, listing};

// Process p has a candidate that passes, by the walk of a step on this process alone.
fn is_ready(t: &[u64], r: &[u64], after: &[u64], a: u32, posts: &[u32], p: usize) -> bool
    requires { Sound t.now × RunOf t.now r.now × (after.now ≡ clocks_by t.now a (clocks_in r.now))
        × (length posts.now ≡ run_processes r.now) × (p < length posts.now) }
    ensures { result ≡ ready_in t.now (run_at r.now) a posts.now p }
{
    let place = runs::PLACES + p;
    candidates::ready(
        t,
        &r[runs::VARS..runs::CLOCKS],
        &r[runs::CLOCKS..runs::WORDS],
        after,
        &r[place..place + 1],
        a,
        &posts[p..p + 1],
    )
}

// The lowest process without one. Here and in `first` the number of all stands for none: `find` would need `unwrap_or` of it, no plainer.
fn unready(t: &[u64], r: &[u64], after: &[u64], a: u32, posts: &[u32]) -> usize
    requires { Sound t.now × RunOf t.now r.now × (after.now ≡ clocks_by t.now a (clocks_in r.now))
        × (length posts.now ≡ run_processes r.now) }
    ensures { result ≡ unready_of t.now (run_at r.now) a posts.now }
{
    for p in 0..posts.len() {
        if !is_ready(t, r, after, a, posts, p) {
            return p;
        }
    }
    posts.len()
}

// The first transition of a key.
fn first(t: &[u64], key: u64) -> usize
    requires { Sound t.now }
    ensures { result ≡ first_of t.now (pre_of key) (action_of key) (post_of key) }
{
    let count = inner::transition_count(t);
    for k in 0..count {
        if inner::key_of(t, k) == key {
            return k;
        }
    }
    count
}

// Which limit of transition k fails, or which invariant of its post-location: the first.
fn number(t: &[u64], clocks: &[u64], after: &[u64], k: usize, failing: u64) -> usize
    requires { Sound t.now × (k < transition_count t.now) × (length clocks.now ≡ clock_room) × (length after.now ≡ clock_room) }
    ensures { result ≡ number_for t.now clocks.now after.now k failing }
{
    if failing == failures::LIMIT {
        return limits::first_unmet(t, k, inner::limit_count(t, k), clocks);
    }
    if failing == failures::INVARIANT {
        let post = inner::post_of(inner::key_of(t, k));
        return limits::first_unmet(
            t,
            inner::invariant_group(post),
            inner::invariant_count(t, post),
            after,
        );
    }
    0
}

// What fails for process p, whose first candidate is transition k.
fn cause_from(t: &[u64], r: &[u64], after: &[u64], p: usize, k: usize) -> Cause
    requires { Sound t.now × RunWords r.now × (length after.now ≡ clock_room) }
    ensures { result ≡ cause_from t.now (run_at r.now) after.now p k }
{
    if inner::transition_count(t) <= k {
        return Cause {
            process: p,
            transition: 0,
            failing: NO_CANDIDATE,
            number: 0,
        };
    }
    let clocks = &r[runs::CLOCKS..runs::WORDS];
    let failing = candidates::failing(t, &r[runs::VARS..runs::CLOCKS], clocks, after, k);
    Cause {
        process: p,
        transition: k,
        failing,
        number: number(t, clocks, after, k, failing),
    }
}

// The cause of an 8.
pub fn cause(t: &[u64], r: &[u64], a: u32, posts: &[u32]) -> Cause
    requires { Sound t.now × RunOf t.now r.now × Asked t.now (run_at r.now) a posts.now }
    ensures { result ≡ cause_of t.now (run_at r.now) a posts.now }
{
    let mut after = [0; sizes::CLOCKS];
    after.copy_from_slice(&r[runs::CLOCKS..runs::WORDS]);
    listing::reset_by(t, a, &mut after);
    let p = unready(t, r, &after, a, posts);
    let key = inner::key_with(r[runs::PLACES + p], a, posts[p] as u64);
    cause_from(t, r, &after, p, first(t, key))
}
