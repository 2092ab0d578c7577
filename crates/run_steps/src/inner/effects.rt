// What an action does to clocks and variables, and a step to places, each in place. Resets and effects are gone through by their number,
// since calls read them from the table (`reset_at(t, a, i)`) and no slice has them.
ghost use Rattle.std.specs.Prelude.{◌≡◌, ◌*◌, ◌≤◌, ◌<◌, length};
ghost use Rattle.laws.specs.Below.{all_below};
ghost use Rattle.grammar.specs.Slots.{slots_of};
ghost use Rattle.graph_tables.specs.Sizes.{variable_room, plain_kind};
ghost use Rattle.graph_tables.specs.Words.{variable_count, clock_count, action_count, action_kind};
ghost use Rattle.graph_tables.specs.Sound.{Sound};
ghost use Rattle.run_steps.specs.Steps.{is_kind, clocks_after, effected_of, placed_below, post_known};
ghost use Rattle.run_steps.specs.Inner.{VarsLeft};

use grammar::inner::{evaluation, slots};
use graph_tables::inner;

// There is such an action, and it is of a kind.
pub fn is_kind(t: &[u64], a: usize, kind: u64) -> bool
    requires { Sound t.now }
    ensures { result ≡ is_kind t.now a kind }
{
    if inner::action_count(t) <= a {
        return false;
    }
    inner::action_kind(t, a) == kind
}

// The clocks that an action resets, at 0.
pub fn reset(t: &[u64], a: usize, clocks: &mut [u64])
    requires { Sound t.now × (a < action_count t.now) × (clock_count t.now ≤ length clocks.old) }
    ensures { clocks.new ≡ clocks_after t.now a clocks.old }
{
    for i in 0..inner::reset_count(t, a) {
        clocks[inner::reset_at(t, a, i)] = 0;
    }
}

// The effects of a plain action, in order, each seeing the ones before; the first without a value is the last.
pub fn run_effects(t: &[u64], a: usize, vars: &mut [u64], word: u64) -> bool
    requires { Sound t.now × (a < action_count t.now) × (action_kind t.now a ≡ plain_kind) × (length vars.old ≡ 2 * variable_room) }
    ensures { (result ≡ (effected_of t.now a (slots_of vars.old) word).fits)
        × VarsLeft (variable_count t.now) vars.old vars.new (effected_of t.now a
        (slots_of vars.old) word).vars }
{
    let mut left = word;
    for e in 0..inner::effect_count(t, a) {
        let evaluation = evaluation::evaluate_on(inner::effect_items(t, a, e), vars, left);
        left = evaluation.rest;
        let answer = evaluation.value;
        let Some(x) = answer else {
            return false;
        };
        slots::put(vars, inner::effect_var(t, a, e), x);
    }
    true
}

// The processes at their posts.
pub fn place(places: &mut [u64], posts: &[u32])
    requires { length places.old ≡ length posts.now }
    ensures { places.new ≡ placed_below places.old posts.now (length places.old) }
{
    for p in 0..posts.len() {
        places[p] = posts[p] as u64;
    }
}

// Whether the posts are locations.
pub fn posts_known(t: &[u64], posts: &[u32]) -> bool
    requires { Sound t.now }
    ensures { result ≡ all_below (length posts.now) (post_known t.now posts.now) }
{
    let locations = inner::location_count(t);
    (0..posts.len()).all(|p| (posts[p] as usize) < locations)
}
