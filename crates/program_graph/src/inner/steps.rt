// A step of a run in words, on a table that it fits. A refusal leaves every word.
ghost use Rattle.std.specs.Prelude.{◌≡◌, cond, ◌<◌, ◌≤◌, length, take};
ghost use Rattle.grammar.specs.Slots.{slots_of};
ghost use Rattle.graph_tables.specs.Sizes.{process_room, clock_room, plain_kind};
ghost use Rattle.graph_tables.specs.RunWords.{RunWords, run_places_start, run_processes, places_in, vars_in, clocks_in};
ghost use Rattle.graph_tables.specs.Words.{action_count, action_kind, effect_count};
ghost use Rattle.graph_tables.specs.Sound.{Sound};
ghost use Rattle.run_steps.specs.Steps.{ready_of, clocks_after, effected_of, placed_below};
ghost use Rattle.run_steps.specs.Inner.{VarsLeft};
ghost use Rattle.program_graph.specs.Running.{ready_still, autonomous_of, plain_of, acted_of, step_of};
ghost use Rattle.program_graph.specs.Inner.{run_at, RunOf, Parts, Effects, DidCall};

use graph_tables::answers::Answer;
use graph_tables::ids::Action;
use graph_tables::refusals::Refusal;
use graph_tables::{inner, layout, runs, sizes};
use run_steps::inner::{candidates, copies, effects};

// Every process has a candidate that passes, with the clocks after.
fn ready_on(t: &[u64], r: &[u64], after: &[u64], action: u32, posts: &[u32]) -> bool
    requires { Sound t.now × RunOf t.now r.now × (length after.now ≡ clock_room) × (length posts.now ≡ run_processes r.now) }
    ensures { result
        ≡ ready_of t.now (slots_of (vars_in r.now)) (clocks_in r.now) after.now
        (places_in r.now) (run_processes r.now) action posts.now }
{
    candidates::ready(
        t,
        &r[runs::VARS..runs::CLOCKS],
        &r[runs::CLOCKS..runs::WORDS],
        after,
        &r[runs::PLACES..runs::PLACES + posts.len()],
        action,
        posts,
    )
}

// Every process has a candidate that passes, with no clock reset.
pub fn ready_still(t: &[u64], r: &[u64], action: u32, posts: &[u32]) -> bool
    requires { Sound t.now × RunOf t.now r.now × (length posts.now ≡ run_processes r.now) }
    ensures { result ≡ ready_still t.now (run_at r.now) action posts.now }
{
    ready_on(t, r, &r[runs::CLOCKS..runs::WORDS], action, posts)
}

// The processes at their posts.
pub fn move_to(r: &mut [u64], posts: &[u32])
    requires { RunWords r.old × (length posts.now ≤ process_room) }
    ensures { Parts r.new (take run_places_start r.old) (placed_below (places_in r.old) posts.now
        (length posts.now)) (vars_in r.old) (clocks_in r.old) }
{
    effects::place(&mut r[runs::PLACES..runs::PLACES + posts.len()], posts)
}

// The clocks at these times.
pub fn set_times(r: &mut [u64], times: &[u64])
    requires { RunWords r.old × (length times.now ≡ clock_room) }
    ensures { Parts r.new (take run_places_start r.old) (places_in r.old) (vars_in r.old)
        times.now }
{
    copies::copy(&mut r[runs::CLOCKS..runs::WORDS], times)
}

// The clocks with an action's resets done, in words of their own.
fn times_after(t: &[u64], a: usize, r: &[u64], after: &mut [u64])
    requires { Sound t.now × (a < action_count t.now) × RunWords r.now × (length after.old ≡ clock_room) }
    ensures { after.new ≡ clocks_after t.now a (clocks_in r.now) }
{
    copies::copy(after, &r[runs::CLOCKS..runs::WORDS]);
    effects::reset(t, a, after)
}

// One effect at most, in place: where it has no value nothing is written.
fn run_single(t: &[u64], r: &mut [u64], a: usize, word: u64) -> bool
    requires { Sound t.now × RunWords r.old × (a < action_count t.now) × (action_kind t.now a ≡ plain_kind) × (effect_count t.now a ≤ 1) }
    ensures { Effects t.now a word r.old result r.new }
{
    effects::run_effects(t, a, &mut r[runs::VARS..runs::CLOCKS], word)
}

// Several, in place; where one has no value the variables are put back.
fn run_several(t: &[u64], r: &mut [u64], a: usize, word: u64) -> bool
    requires { Sound t.now × RunWords r.old × (a < action_count t.now) × (action_kind t.now a ≡ plain_kind) }
    ensures { Effects t.now a word r.old result r.new }
{
    let mut saved = [0; runs::CLOCKS - runs::VARS];
    copies::copy(&mut saved, &r[runs::VARS..runs::CLOCKS]);
    if effects::run_effects(t, a, &mut r[runs::VARS..runs::CLOCKS], word) {
        return true;
    }
    copies::copy(&mut r[runs::VARS..runs::CLOCKS], &saved);
    false
}

// The effects of a plain action, or none where one has no value.
fn run_effects(t: &[u64], r: &mut [u64], a: usize, word: u64) -> bool
    requires { Sound t.now × RunWords r.old × (a < action_count t.now) × (action_kind t.now a ≡ plain_kind) }
    ensures { Effects t.now a word r.old result r.new }
{
    if inner::effect_count(t, a) <= 1 {
        return run_single(t, r, a, word);
    }
    run_several(t, r, a, word)
}

// A step by the reserved action.
fn autonomous(t: &[u64], r: &mut [u64], posts: &[u32]) -> Answer<()>
    requires { Sound t.now × RunOf t.now r.old × (length posts.now ≡ run_processes r.old) }
    ensures { DidCall t.now r.old result r.new (autonomous_of t.now (run_at r.old)
        posts.now) }
{
    if !ready_still(t, r, Action::EPSILON.0, posts) {
        return Err(Refusal::UnsatisfiedGuard);
    }
    move_to(r, posts);
    Ok(())
}

// A step by a plain action.
fn plain(t: &[u64], r: &mut [u64], a: usize, posts: &[u32], word: u64) -> Answer<()>
    requires { Sound t.now × RunOf t.now r.old × (length posts.now ≡ run_processes r.old) × (a < action_count t.now)
        × (action_kind t.now a ≡ plain_kind) }
    ensures { DidCall t.now r.old result r.new (plain_of t.now (run_at r.old) a
        posts.now word) }
{
    let mut after = [0; sizes::CLOCKS];
    times_after(t, a, r, &mut after);
    if !ready_on(t, r, &after, a as u32, posts) {
        return Err(Refusal::UnsatisfiedGuard);
    }
    if !run_effects(t, r, a, word) {
        return Err(Refusal::Overflow);
    }
    set_times(r, &after);
    move_to(r, posts);
    Ok(())
}

fn acted(t: &[u64], r: &mut [u64], action: u32, posts: &[u32], word: u64) -> Answer<()>
    requires { Sound t.now × RunOf t.now r.old × (length posts.now ≡ run_processes r.old) }
    ensures { DidCall t.now r.old result r.new (acted_of t.now (run_at r.old) action
        posts.now word) }
{
    let a = action as usize;
    if inner::action_count(t) <= a {
        return Err(Refusal::MissingAction);
    }
    if inner::action_kind(t, a) != layout::PLAIN {
        return Err(Refusal::Communication);
    }
    plain(t, r, a, posts, word)
}

// A step on a table and a run that are known to fit.
pub fn step(t: &[u64], r: &mut [u64], action: u32, posts: &[u32], word: u64) -> Answer<()>
    requires { Sound t.now × RunOf t.now r.old }
    ensures { DidCall t.now r.old result r.new (step_of t.now (run_at r.old) action
        posts.now word) }
{
    if posts.len() as u64 != r[runs::PROCESSES] {
        return Err(Refusal::MismatchingPostStates);
    }
    if !effects::posts_known(t, posts) {
        return Err(Refusal::MissingLocation);
    }
    if action == Action::EPSILON.0 {
        return autonomous(t, r, posts);
    }
    acted(t, r, action, posts, word)
}
