// Resets, effects and messages of actions, and an action more.
ghost use Rattle.std.specs.Prelude.{◌≡◌, ℕ, ◌≤◌, ◌<◌, length};
ghost use Rattle.graph_tables.specs.Sizes.{action_room, effect_room, reset_room, message_room, item_room};
ghost use Rattle.graph_tables.specs.Words.{Words, action_count, reset_count, effect_count};
ghost use Rattle.graph_edits.specs.Edits.{with_action, reset_place, with_reset, with_expression, with_effect, chosen, with_expressions};
ghost use Rattle.graph_edits.specs.Edits.{with_send, with_targets, with_receive};

use crate::inner::rows;
use graph_tables::handed::Vars;
use graph_tables::inner::{places, writers};
use graph_tables::{inner, layout};

// An action of this kind, with so many effects and no resets.
pub fn put_action(t: &mut [u64], kind: u64, effects: usize)
    requires { Words t.old × (action_count t.old < action_room) }
    ensures { t.new ≡ with_action t.old kind effects }
{
    let n = inner::action_count(t);
    writers::set_action_kind(t, n, kind);
    writers::set_reset_count(t, n, 0);
    writers::set_effect_count(t, n, effects);
    writers::set_action_count(t, n + 1);
}

// The first reset of an action that is above the clock.
fn reset_place(t: &[u64], a: usize, clock: usize) -> usize
    requires { Words t.now × (a < action_room) × (reset_count t.now a ≤ reset_room) }
    ensures value { result ≡ reset_place t.now a clock }
    ensures upper_bound { result ≤ reset_count t.now a }
{
    rows::place(
        t,
        places::reset_cell(a, 0),
        1,
        inner::reset_count(t, a),
        clock as u64,
    )
}

// The later resets move up by one.
pub fn put_reset(t: &mut [u64], a: usize, clock: usize)
    requires { Words t.old × (a < action_room) × (reset_count t.old a < reset_room) }
    ensures { t.new ≡ with_reset t.old a clock }
{
    let n = inner::reset_count(t, a);
    let p = reset_place(t, a, clock);
    rows::open_gap(t, places::reset_cell(a, p), places::reset_cell(a, n), 1);
    writers::set_reset(t, a, p, clock);
    writers::set_reset_count(t, a, n + 1);
}

// The items of expression e of an action.
#[tactic(auto, unfolding(crate::specs::Edits::with_expression))]
fn put_expression(t: &mut [u64], a: usize, e: usize, items: &[u64])
    requires { Words t.old × (a < action_room) × (e < effect_room) × (length items.now ≤ item_room) }
    ensures { t.new ≡ with_expression t.old a e items.now }
{
    writers::set_effect_length(t, a, e, items.len());
    rows::write_words(t, places::effect_slot(a, e), items);
}

// An effect behind the others.
pub fn put_effect(t: &mut [u64], a: usize, v: usize, items: &[u64])
    requires { Words t.old × (a < action_room) × (effect_count t.old a < effect_room) × (length items.now ≤ item_room) }
    ensures { t.new ≡ with_effect t.old a v items.now }
{
    let e = inner::effect_count(t, a);
    put_expression(t, a, e, items);
    writers::set_effect_var(t, a, e, v);
    writers::set_effect_count(t, a, e + 1);
}

// Expression i of a message.
pub fn choose<'a>(w: &'a [u64], x: &'a [u64], y: &'a [u64], z: &'a [u64], i: usize) -> &'a [u64]
    ensures { result.now ≡ chosen w.now x.now y.now z.now i }
{
    match i {
        0 => w,
        1 => x,
        2 => y,
        _ => z,
    }
}

#[tactic(auto, unfolding(crate::specs::Edits::with_expressions))]
fn put_expressions<'a>(
    t: &mut [u64],
    a: usize,
    w: &'a [u64],
    x: &'a [u64],
    y: &'a [u64],
    z: &'a [u64],
    count: usize,
)
    requires { Words t.old × (a < action_room) × (count ≤ message_room)
        × ((i : ℕ) → i < count → length (chosen w.now x.now y.now z.now i) ≤ item_room) }
    ensures { t.new
        ≡ with_expressions t.old a (chosen w.now x.now y.now z.now) count }
{
    // By its number: the calls are handed four slices and a count.
    for e in 0..count {
        put_expression(t, a, e, choose(w, x, y, z, e));
    }
}

// A send of the first count expressions.
#[tactic(auto, using(crate::proofs::ActionLaws::expressions_kept))]
pub fn put_send<'a>(
    t: &mut [u64],
    w: &'a [u64],
    x: &'a [u64],
    y: &'a [u64],
    z: &'a [u64],
    count: usize,
)
    requires { Words t.old × (action_count t.old < action_room) × (count ≤ message_room)
        × ((i : ℕ) → i < count → length (chosen w.now x.now y.now z.now i) ≤ item_room) }
    ensures { t.new
        ≡ with_send t.old (chosen w.now x.now y.now z.now) count }
{
    let n = inner::action_count(t);
    put_expressions(t, n, w, x, y, z, count);
    put_action(t, layout::SEND, count);
}

#[tactic(auto, unfolding(crate::specs::Edits::with_targets))]
fn put_targets(t: &mut [u64], a: usize, handed: Vars)
    requires { Words t.old × (a < action_room) × (handed.count ≤ message_room) }
    ensures { t.new ≡ with_targets t.old a handed handed.count }
{
    for (e, var) in handed.vars[..handed.count].iter().enumerate() {
        writers::set_effect_var(t, a, e, var.0 as usize);
    }
}

// A receive into the handed variables.
#[tactic(auto, using(crate::proofs::ActionLaws::targets_actions))]
pub fn put_receive(t: &mut [u64], handed: Vars)
    requires { Words t.old × (action_count t.old < action_room) × (handed.count ≤ message_room) }
    ensures { t.new ≡ with_receive t.old handed }
{
    let n = inner::action_count(t);
    put_targets(t, n, handed);
    put_action(t, layout::RECEIVE, handed.count);
}
