// Building calls of a graph, on one graph of a system: the words of that graph alone are changed.
ghost use Rattle.std.specs.Prelude.{◌≡◌, ℕ, List, Err};
ghost use Rattle.std.specs.Fn.{FnOnceReturnsAtMut};
ghost use Rattle.graph_tables.specs.Answers.{admitted};
ghost use Rattle.graph_tables.specs.declared.refusals.Refusal.{Refusal};
ghost use Rattle.system_tables.specs.Words.{graph_part, with_graph};
ghost use Rattle.graph_tables.specs.Words.{epsilon};
ghost use Rattle.graph_tables.specs.Handed.{no_limits};
ghost use Rattle.system_builder.specs.Graphs.{new_var_on, new_clock_on, new_process_on, add_reset_on, add_effect_on, new_timed_location_on};
ghost use Rattle.system_builder.specs.Graphs.{new_initial_on, add_transition_on, var_type_in, new_action_on, placed_on, member_check};
ghost use Rattle.graph_builder.specs.Building.{new_action_of};

use crate::inner::{checks, graphs};
use grammar::values::{Type, Val};
use graph_tables::answers::Answer;
use graph_tables::handed::Limits;
use graph_tables::ids::{Action, Clock, Location, Var};
use system_tables::ids::{Communication, PgId};
use system_tables::inner::words;

// A building call on graph g: it is lent the words of that graph.
fn on_graph<T, F: FnOnce(&mut [u64]) -> Answer<T>>(t: &mut [u64], g: PgId, call: F) -> Answer<T>
    requires { F.IsAlwaysCallable call }
    ensures refused { (r : Refusal) → member_check t.old g.0 ≡ Err r → (result ≡ Err r) × (t.new ≡ t.old) }
    ensures called { member_check t.old g.0 ≡ admitted → (G : List ℕ)
        × FnOnceReturnsAtMut F.FnOnce call (graph_part t.old g.0) result G
        × (t.new ≡ with_graph t.old g.0 G) }
{
    checks::member_check(t, g.0)?;
    graphs::on_part(t, g.0 as usize, call)
}

pub fn new_var(t: &mut [u64], g: PgId, val: Val) -> Answer<u32>
    ensures { (result ≡ (new_var_on t.old g.0 val).answer) × (t.new ≡ (new_var_on t.old g.0 val).table) }
{
    on_graph(t, g, |graph| graph_builder::new_var(graph, val))
}

// It only reads the graph, so it is not a call of `on_graph`, which lends the words to be changed.
#[tactic(auto, unfolding(crate::specs::Graphs::var_type_in))]
pub fn var_type(t: &[u64], g: PgId, var: Var) -> Answer<Type>
    ensures { result ≡ var_type_in t.now g.0 var.0 }
{
    checks::member_check(t, g.0)?;
    graph_builder::var_type(words::graph_at(t, g.0 as usize), var)
}

pub fn new_clock(t: &mut [u64], g: PgId) -> Answer<u32>
    ensures { (result ≡ (new_clock_on t.old g.0).answer) × (t.new ≡ (new_clock_on t.old g.0).table) }
{
    on_graph(t, g, |graph| graph_builder::new_clock(graph))
}

fn plain_action(t: &mut [u64], g: PgId) -> Answer<u32>
    ensures { (result ≡ (placed_on new_action_of t.old g.0).answer) × (t.new ≡ (placed_on new_action_of t.old g.0).table) }
{
    on_graph(t, g, |graph| graph_builder::new_action(graph))
}

// A plain action: it has no communication.
pub fn new_action(t: &mut [u64], g: PgId) -> Answer<u32>
    ensures { (result ≡ (new_action_on t.old g.0).answer) × (t.new ≡ (new_action_on t.old g.0).table) }
{
    let placed = plain_action(t, g);
    graphs::tell(t, g.0 as usize, placed, Communication::Plain);
    placed
}

pub fn new_process(t: &mut [u64], g: PgId, location: Location) -> Answer<()>
    ensures { (result ≡ (new_process_on t.old g.0 location.0).answer) × (t.new ≡ (new_process_on t.old g.0 location.0).table) }
{
    on_graph(t, g, |graph| graph_builder::new_process(graph, location))
}

pub fn add_reset(t: &mut [u64], g: PgId, action: Action, clock: Clock) -> Answer<()>
    ensures { (result ≡ (add_reset_on t.old g.0 action.0 clock.0).answer) × (t.new ≡ (add_reset_on t.old g.0 action.0 clock.0).table) }
{
    on_graph(t, g, |graph| graph_builder::add_reset(graph, action, clock))
}

pub fn add_effect(t: &mut [u64], g: PgId, action: Action, var: Var, effect: &[u64]) -> Answer<()>
    ensures { (result ≡ (add_effect_on t.old g.0 action.0 var.0 effect.now).answer) × (t.new ≡ (add_effect_on t.old g.0 action.0 var.0 effect.now).table) }
{
    on_graph(
        t,
        g,
        |graph| graph_builder::add_effect(graph, action, var, effect),
    )
}

pub fn new_timed_location(t: &mut [u64], g: PgId, invariants: Limits) -> Answer<u32>
    ensures { (result ≡ (new_timed_location_on t.old g.0 invariants).answer) × (t.new ≡ (new_timed_location_on t.old g.0 invariants).table) }
{
    on_graph(
        t,
        g,
        |graph| graph_builder::new_timed_location(graph, invariants),
    )
}

pub fn new_location(t: &mut [u64], g: PgId) -> Answer<u32>
    ensures { (result ≡ (new_timed_location_on t.old g.0 no_limits).answer) × (t.new ≡ (new_timed_location_on t.old g.0 no_limits).table) }
{
    new_timed_location(t, g, Limits::none())
}

pub fn new_initial_timed_location(t: &mut [u64], g: PgId, invariants: Limits) -> Answer<u32>
    ensures { (result ≡ (new_initial_on t.old g.0 invariants).answer) × (t.new ≡ (new_initial_on t.old g.0 invariants).table) }
{
    on_graph(
        t,
        g,
        |graph| graph_builder::new_initial_timed_location(graph, invariants),
    )
}

pub fn new_initial_location(t: &mut [u64], g: PgId) -> Answer<u32>
    ensures { (result ≡ (new_initial_on t.old g.0 no_limits).answer) × (t.new ≡ (new_initial_on t.old g.0 no_limits).table) }
{
    new_initial_timed_location(t, g, Limits::none())
}

pub fn add_timed_transition(
    t: &mut [u64],
    g: PgId,
    pre: Location,
    action: Action,
    post: Location,
    guarded: bool,
    guard: &[u64],
    limits: Limits,
) -> Answer<()>
    ensures { (result ≡ (add_transition_on t.old g.0 pre.0 action.0 post.0 guarded guard.now limits).answer) × (t.new ≡ (add_transition_on t.old g.0 pre.0 action.0 post.0 guarded guard.now limits).table) }
{
    on_graph(
        t,
        g,
        |graph| graph_builder::add_timed_transition(
            graph, pre, action, post, guarded, guard, limits,
        ),
    )
}

pub fn add_transition(
    t: &mut [u64],
    g: PgId,
    pre: Location,
    action: Action,
    post: Location,
    guarded: bool,
    guard: &[u64],
) -> Answer<()>
    ensures { (result ≡ (add_transition_on t.old g.0 pre.0 action.0 post.0 guarded guard.now no_limits).answer) × (t.new ≡ (add_transition_on t.old g.0 pre.0 action.0 post.0 guarded guard.now no_limits).table) }
{
    add_timed_transition(t, g, pre, action, post, guarded, guard, Limits::none())
}

// A transition by the reserved action.
pub fn add_autonomous_timed_transition(
    t: &mut [u64],
    g: PgId,
    pre: Location,
    post: Location,
    guarded: bool,
    guard: &[u64],
    limits: Limits,
) -> Answer<()>
    ensures { (result ≡ (add_transition_on t.old g.0 pre.0 epsilon post.0 guarded guard.now limits).answer) × (t.new ≡ (add_transition_on t.old g.0 pre.0 epsilon post.0 guarded guard.now limits).table) }
{
    add_timed_transition(t, g, pre, Action::EPSILON, post, guarded, guard, limits)
}

pub fn add_autonomous_transition(
    t: &mut [u64],
    g: PgId,
    pre: Location,
    post: Location,
    guarded: bool,
    guard: &[u64],
) -> Answer<()>
    ensures { (result ≡ (add_transition_on t.old g.0 pre.0 epsilon post.0 guarded guard.now no_limits).answer) × (t.new ≡ (add_transition_on t.old g.0 pre.0 epsilon post.0 guarded guard.now no_limits).table) }
{
    add_transition(t, g, pre, Action::EPSILON, post, guarded, guard)
}
