// Candidates of a step, and whether every process has one that passes.
ghost use Rattle.std.specs.Prelude.{◌≡◌, ℕ, ◌*◌, ◌≤◌, ◌<◌, length, get_or};
ghost use Rattle.laws.specs.Below.{any_below};
ghost use Rattle.grammar.specs.Evaluation.{evaluation_of};
ghost use Rattle.grammar.specs.Slots.{slots_of};
ghost use Rattle.graph_tables.specs.Sizes.{clock_room, variable_room};
ghost use Rattle.graph_tables.specs.Words.{location_count, transition_count, pre_of, action_of, post_of};
ghost use Rattle.graph_tables.specs.Sound.{Sound};
ghost use Rattle.run_steps.specs.Steps.{satisfied, guard_holds, failing_of, passes_of, leads_of, ready_of};

use crate::failures;
use crate::inner::limits;
use grammar::inner::evaluation;
use grammar::values::Val;
use graph_tables::{inner, sizes};

// A guard without a value is not satisfied.
fn is_satisfied(items: &[u64], vars: &[u64]) -> bool
    requires { length vars.now ≡ 2 * variable_room }
    ensures { result ≡ satisfied (evaluation_of (slots_of vars.now) 0 items.now).value }
{
    let evaluation = evaluation::evaluate_on(items, vars, 0);
    let answer = evaluation.value;
    let Some(value) = answer else {
        return false;
    };
    let Val::Boolean(holds) = value else {
        return false;
    };
    holds
}

// The guard of transition k is true, or there is none.
fn guard_holds(t: &[u64], k: usize, vars: &[u64]) -> bool
    requires { Sound t.now × (k < transition_count t.now) × (length vars.now ≡ 2 * variable_room) }
    ensures { result ≡ guard_holds t.now (slots_of vars.now) k }
{
    if inner::guard_length(t, k) == 0 {
        return true;
    }
    is_satisfied(inner::guard_items(t, k), vars)
}

// What fails of transition k first: its guard, a limit on the clocks as they are, or an invariant of its post-location on the clocks after.
pub fn failing(t: &[u64], vars: &[u64], clocks: &[u64], after: &[u64], k: usize) -> u64
    requires { Sound t.now × (k < transition_count t.now) × (length vars.now ≡ 2 * variable_room) × (length clocks.now ≡ clock_room)
        × (length after.now ≡ clock_room) }
    ensures { result ≡ failing_of t.now (slots_of vars.now) clocks.now after.now k }
{
    if !guard_holds(t, k, vars) {
        return failures::GUARD;
    }
    if !limits::limits_hold(t, k, inner::limit_count(t, k), clocks) {
        return failures::LIMIT;
    }
    if !limits::invariants_hold(t, inner::post_of(inner::key_of(t, k)), after) {
        return failures::INVARIANT;
    }
    failures::NOTHING
}

// Transition k passes: nothing fails.
pub fn passes(t: &[u64], vars: &[u64], clocks: &[u64], after: &[u64], k: usize) -> bool
    requires { Sound t.now × (k < transition_count t.now) × (length vars.now ≡ 2 * variable_room) × (length clocks.now ≡ clock_room)
        × (length after.now ≡ clock_room) }
    ensures { result ≡ passes_of t.now (slots_of vars.now) clocks.now after.now k }
{
    failing(t, vars, clocks, after, k) == failures::NOTHING
}

// Transition k has a key, and it passes.
fn leads(t: &[u64], vars: &[u64], clocks: &[u64], after: &[u64], key: u64, k: usize) -> bool
    requires { Sound t.now × (k < transition_count t.now) × (length vars.now ≡ 2 * variable_room) × (length clocks.now ≡ clock_room)
        × (length after.now ≡ clock_room) }
    ensures { result
        ≡ leads_of t.now (slots_of vars.now) clocks.now after.now (pre_of key) (action_of key)
        (post_of key) k }
{
    if inner::key_of(t, k) != key {
        return false;
    }
    passes(t, vars, clocks, after, k)
}

// Some transition leads from a place by an action to a post. None does to a post that has no place in a key.
fn can_lead(
    t: &[u64],
    vars: &[u64],
    clocks: &[u64],
    after: &[u64],
    place: u64,
    action: u32,
    post: u32,
) -> bool
    requires { Sound t.now × (length vars.now ≡ 2 * variable_room) × (length clocks.now ≡ clock_room) × (length after.now ≡ clock_room)
        × (place < location_count t.now) }
    ensures { result
        ≡ any_below (transition_count t.now)
        (leads_of t.now (slots_of vars.now) clocks.now after.now place action post) }
{
    if sizes::LOCATIONS <= post as usize {
        return false;
    }
    let key = inner::key_with(place, action, post as u64);
    (0..inner::transition_count(t)).any(|k| leads(t, vars, clocks, after, key, k))
}

// Every process has a candidate that passes. The test stops at the first process without one.
pub fn ready(
    t: &[u64],
    vars: &[u64],
    clocks: &[u64],
    after: &[u64],
    places: &[u64],
    action: u32,
    posts: &[u32],
) -> bool
    requires { Sound t.now × (length vars.now ≡ 2 * variable_room) × (length clocks.now ≡ clock_room) × (length after.now ≡ clock_room)
        × ((p : ℕ) → p < length places.now → get_or places.now p 0 < location_count t.now) × (length places.now ≤ length posts.now) }
    ensures { result
        ≡ ready_of t.now (slots_of vars.now) clocks.now after.now places.now
        (length places.now) action posts.now }
{
    (0..places.len()).all(|p| can_lead(t, vars, clocks, after, places[p], action, posts[p]))
}
