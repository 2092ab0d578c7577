// The words of a graph, by name: read here, written and placed in the modules below. Each function asks for a table of the
// right length and a number within its size; what stands there may be anything.
// Readers that differ in a constant stay apart, here and in the modules below: each is one line, and a call of one generic function, as
// `word::<{..}>(t)`, would be as long and say less.
pub mod messages;
pub mod places;
pub mod tests;
pub mod writers;

ghost use Rattle.std.specs.Prelude.{◌≡◌, ℕ, ◌/◌, ◌≤◌, ◌<◌};
ghost use Rattle.graph_tables.specs.Words.{Words, variable_count, clock_count, location_count, action_count, process_count};
ghost use Rattle.graph_tables.specs.Words.{transition_count, kind_at, kinds_of, value_at, place_at, invariant_count, action_kind};
ghost use Rattle.graph_tables.specs.Words.{reset_count, effect_count, reset_at, effect_var, effect_length, key_of, guard_length, limit_count};
ghost use Rattle.graph_tables.specs.Words.{pre_of, action_of, post_of, key_with, invariant_group, clock_of, lower_of, upper_of, bound_of};
ghost use Rattle.graph_tables.specs.Words.{bound_word, limit_range, guard_items, effect_items};
ghost use Rattle.graph_tables.specs.Sizes.{variable_room, process_room, location_room, action_room, transition_room, group_room, limit_room};
ghost use Rattle.graph_tables.specs.Sizes.{reset_room, effect_room, item_room, word32};
ghost use Rattle.graph_tables.specs.Layout.{post_span, bound_span};
ghost use Rattle.time.specs.Time.{lower_met, upper_met};
ghost use Rattle.graph_tables.specs.Sound.{BoundsFit};

use crate::{layout, sizes};
use time::{Bound, TimeRange};

pub fn variable_count(t: &[u64]) -> usize
    requires { Words t.now }
    ensures { result ≡ variable_count t.now }
{
    t[layout::VARIABLES] as usize
}

pub fn clock_count(t: &[u64]) -> usize
    requires { Words t.now }
    ensures { result ≡ clock_count t.now }
{
    t[layout::CLOCKS] as usize
}

pub fn location_count(t: &[u64]) -> usize
    requires { Words t.now }
    ensures { result ≡ location_count t.now }
{
    t[layout::LOCATIONS] as usize
}

pub fn action_count(t: &[u64]) -> usize
    requires { Words t.now }
    ensures { result ≡ action_count t.now }
{
    t[layout::ACTIONS] as usize
}

pub fn process_count(t: &[u64]) -> usize
    requires { Words t.now }
    ensures { result ≡ process_count t.now }
{
    t[layout::PROCESSES] as usize
}

pub fn transition_count(t: &[u64]) -> usize
    requires { Words t.now }
    ensures { result ≡ transition_count t.now }
{
    t[layout::TRANSITIONS] as usize
}

pub fn kind_at(t: &[u64], v: usize) -> u64
    requires { Words t.now × (v < variable_room) }
    ensures { result ≡ kind_at t.now v }
{
    t[layout::KINDS_START + v]
}

pub fn value_at(t: &[u64], v: usize) -> u64
    requires { Words t.now × (v < variable_room) }
    ensures { result ≡ value_at t.now v }
{
    t[layout::VALUES_START + v]
}

pub fn place_at(t: &[u64], p: usize) -> usize
    requires { Words t.now × (p < process_room) }
    ensures { result ≡ place_at t.now p }
{
    t[layout::PLACES_START + p] as usize
}

pub fn invariant_count(t: &[u64], l: usize) -> usize
    requires { Words t.now × (l < location_room) }
    ensures { result ≡ invariant_count t.now l }
{
    t[layout::INVARIANTS_START + l] as usize
}

pub fn action_kind(t: &[u64], a: usize) -> u64
    requires { Words t.now × (a < action_room) }
    ensures { result ≡ action_kind t.now a }
{
    t[layout::ACTIONS_START + layout::ACTION_WIDTH * a]
}

pub fn reset_count(t: &[u64], a: usize) -> usize
    requires { Words t.now × (a < action_room) }
    ensures { result ≡ reset_count t.now a }
{
    t[layout::ACTIONS_START + layout::ACTION_WIDTH * a + layout::RESET_COUNT] as usize
}

pub fn effect_count(t: &[u64], a: usize) -> usize
    requires { Words t.now × (a < action_room) }
    ensures { result ≡ effect_count t.now a }
{
    t[layout::ACTIONS_START + layout::ACTION_WIDTH * a + layout::EFFECT_COUNT] as usize
}

pub fn reset_at(t: &[u64], a: usize, i: usize) -> usize
    requires { Words t.now × (a < action_room) × (i < reset_room) }
    ensures { result ≡ reset_at t.now a i }
{
    t[layout::ACTIONS_START + layout::ACTION_WIDTH * a + (layout::RESETS + i)] as usize
}

pub fn effect_var(t: &[u64], a: usize, e: usize) -> usize
    requires { Words t.now × (a < action_room) × (e < effect_room) }
    ensures { result ≡ effect_var t.now a e }
{
    t[layout::ACTIONS_START + layout::ACTION_WIDTH * a + (layout::VARS + e)] as usize
}

pub fn effect_length(t: &[u64], a: usize, e: usize) -> usize
    requires { Words t.now × (a < action_room) × (e < effect_room) }
    ensures { result ≡ effect_length t.now a e }
{
    t[layout::ACTIONS_START + layout::ACTION_WIDTH * a + (layout::LENGTHS + e)] as usize
}

pub fn key_of(t: &[u64], k: usize) -> u64
    requires { Words t.now × (k < transition_room) }
    ensures { result ≡ key_of t.now k }
{
    t[layout::TRANSITIONS_START + layout::TRANSITION_WIDTH * k]
}

// The parts of a key, and the key of three parts: one number in the order of pre, action and post.
pub fn pre_of(key: u64) -> usize
    ensures { result ≡ pre_of key }
{
    (key / layout::PRE_SPAN) as usize
}

pub fn action_of(key: u64) -> u32
    ensures { result ≡ action_of key }
{
    (key / layout::POST_SPAN % layout::ACTION_SPAN) as u32
}

pub fn post_of(key: u64) -> usize
    ensures { result ≡ post_of key }
{
    (key % layout::POST_SPAN) as usize
}

pub fn key_with(pre: u64, action: u32, post: u64) -> u64
    requires { (pre < post_span) × (post < post_span) }
    ensures { result ≡ key_with pre action post }
{
    (pre * layout::ACTION_SPAN + (action as u64)) * layout::POST_SPAN + post
}

// The group of a location's invariants.
pub fn invariant_group(l: usize) -> usize
    requires { l < location_room }
    ensures { result ≡ invariant_group l }
{
    sizes::TRANSITIONS + l
}

pub fn guard_length(t: &[u64], k: usize) -> usize
    requires { Words t.now × (k < transition_room) }
    ensures { result ≡ guard_length t.now k }
{
    t[layout::TRANSITIONS_START + layout::TRANSITION_WIDTH * k + layout::GUARD_LENGTH] as usize
}

pub fn limit_count(t: &[u64], k: usize) -> usize
    requires { Words t.now × (k < transition_room) }
    ensures { result ≡ limit_count t.now k }
{
    t[layout::TRANSITIONS_START + layout::TRANSITION_WIDTH * k + layout::LIMIT_COUNT] as usize
}

pub fn clock_of(t: &[u64], g: usize, i: usize) -> usize
    requires { Words t.now × (g < group_room) × (i < limit_room) }
    ensures { result ≡ clock_of t.now g i }
{
    t[layout::LIMITS_START + layout::GROUP_WIDTH * g + layout::LIMIT_WIDTH * i] as usize
}

pub fn lower_of(t: &[u64], g: usize, i: usize) -> u64
    requires { Words t.now × (g < group_room) × (i < limit_room) }
    ensures { result ≡ lower_of t.now g i }
{
    t[layout::LIMITS_START + layout::GROUP_WIDTH * g + layout::LIMIT_WIDTH * i + layout::LOWER]
}

pub fn upper_of(t: &[u64], g: usize, i: usize) -> u64
    requires { Words t.now × (g < group_room) × (i < limit_room) }
    ensures { result ≡ upper_of t.now g i }
{
    t[layout::LIMITS_START + layout::GROUP_WIDTH * g + layout::LIMIT_WIDTH * i + layout::UPPER]
}

// The bound that a word stands for, and the word of a bound.
pub fn bound_of(w: u64) -> Bound
    requires { w / bound_span < word32 }
    ensures { result ≡ bound_of w }
{
    let kind = w % layout::BOUND_SPAN;
    if kind == layout::INCLUDED {
        return Bound::Included((w / layout::BOUND_SPAN) as u32);
    }
    if kind == layout::EXCLUDED {
        return Bound::Excluded((w / layout::BOUND_SPAN) as u32);
    }
    Bound::Unbounded
}

pub fn bound_word(b: Bound) -> u64
    ensures { result ≡ bound_word b }
{
    match b {
        Bound::Included(n) => (n as u64) * layout::BOUND_SPAN + layout::INCLUDED,
        Bound::Excluded(n) => (n as u64) * layout::BOUND_SPAN + layout::EXCLUDED,
        Bound::Unbounded => layout::UNBOUNDED,
    }
}

// The lower bound that a word stands for is met at a time, and so is the upper one.
pub fn lower_met(w: u64, time: u64) -> bool
    ensures { result ≡ lower_met (bound_of w) time }
{
    let kind = w % layout::BOUND_SPAN;
    if kind == layout::INCLUDED {
        return w / layout::BOUND_SPAN <= time;
    }
    if kind == layout::EXCLUDED {
        return w / layout::BOUND_SPAN < time;
    }
    true
}

pub fn upper_met(w: u64, time: u64) -> bool
    ensures { result ≡ upper_met (bound_of w) time }
{
    let kind = w % layout::BOUND_SPAN;
    if kind == layout::INCLUDED {
        return time <= w / layout::BOUND_SPAN;
    }
    if kind == layout::EXCLUDED {
        return time < w / layout::BOUND_SPAN;
    }
    true
}

pub fn limit_range(t: &[u64], g: usize, i: usize) -> TimeRange
    requires { Words t.now × (g < group_room) × (i < limit_room) × BoundsFit t.now g i }
    ensures { result ≡ limit_range t.now g i }
{
    let lower = bound_of(lower_of(t, g, i));
    let upper = bound_of(upper_of(t, g, i));
    TimeRange::new(lower, upper)
}

// The kinds of the variables.
pub fn kinds_of(t: &[u64]) -> &[u64]
    requires { Words t.now × (variable_count t.now ≤ variable_room) }
    ensures { result.now ≡ kinds_of t.now }
{
    let e = layout::KINDS_START + variable_count(t);
    &t[layout::KINDS_START..e]
}

// The items of a guard, and of an effect.
pub fn guard_items(t: &[u64], k: usize) -> &[u64]
    requires { Words t.now × (k < transition_room) × (guard_length t.now k ≤ item_room) }
    ensures { result.now ≡ guard_items t.now k }
{
    let a = places::guard_slot(k);
    let e = a + guard_length(t, k);
    &t[a..e]
}

pub fn effect_items(t: &[u64], a: usize, e: usize) -> &[u64]
    requires { Words t.now × (a < action_room) × (e < effect_room) × (effect_length t.now a e ≤ item_room) }
    ensures { result.now ≡ effect_items t.now a e }
{
    let from = places::effect_slot(a, e);
    let to = from + effect_length(t, a, e);
    &t[from..to]
}
