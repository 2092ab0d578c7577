// Building a graph.
ghost use Rattle.std.specs.Prelude.{◌≡◌, true};
ghost use Rattle.grammar.specs.Slots.{val_of, is_value};
ghost use Rattle.graph_edits.specs.Edits.{chosen};
ghost use Rattle.graph_builder.specs.Building.{empty_of, new_var_of, var_type_of, new_clock_of, new_action_of, new_process_of, build_of, add_reset_of};
ghost use Rattle.graph_builder.specs.Building.{add_effect_of, new_send_of, new_receive_of, new_timed_location_of, new_initial_of, add_transition_of};
ghost use Rattle.c_words.specs.Told.{number_words, done_told, var_type_told};
ghost use Rattle.c_words.specs.Given.{placing, doing, reading, Gives, Does, Tells};
ghost use Rattle.c_words.specs.Handed.{vars_from, limits_known, limits_from};

use c_words::inner::{given, handed};
use grammar::inner::slots;
use graph_tables::ids::{Action, Clock, Location, Var};

pub fn njn_graph_new(t: &mut [u64]) -> u32
    ensures { Does result t.new (doing true t.old (empty_of t.old)) }
{
    given::done(graph_builder::new(t))
}

pub fn njn_graph_new_var(t: &mut [u64], kind: u64, payload: u64, out: &mut [u64]) -> u32
    ensures { Gives result t.new out.new (placing (is_value kind payload) t.old out.old (new_var_of t.old (val_of kind payload))) }
{
    if out.len() < given::NUMBER {
        return given::SHORT;
    }
    if !slots::is_value(kind, payload) {
        return given::MALFORMED;
    }
    let value = slots::value_of(kind, payload);
    given::told(graph_builder::new_var(t, value), out)
}

pub fn njn_graph_var_type(t: &[u64], var: u32, out: &mut [u64]) -> u32
    ensures { Tells result out.new (reading number_words out.old (var_type_told (var_type_of t.now var))) }
{
    if out.len() < given::NUMBER {
        return given::SHORT;
    }
    given::told(graph_builder::var_type(t, Var(var)), out)
}

pub fn njn_graph_new_clock(t: &mut [u64], out: &mut [u64]) -> u32
    ensures { Gives result t.new out.new (placing true t.old out.old (new_clock_of t.old)) }
{
    if out.len() < given::NUMBER {
        return given::SHORT;
    }
    given::told(graph_builder::new_clock(t), out)
}

pub fn njn_graph_new_action(t: &mut [u64], out: &mut [u64]) -> u32
    ensures { Gives result t.new out.new (placing true t.old out.old (new_action_of t.old)) }
{
    if out.len() < given::NUMBER {
        return given::SHORT;
    }
    given::told(graph_builder::new_action(t), out)
}

pub fn njn_graph_add_reset(t: &mut [u64], action: u32, clock: u32) -> u32
    ensures { Does result t.new (doing true t.old (add_reset_of t.old action clock)) }
{
    given::done(graph_builder::add_reset(t, Action(action), Clock(clock)))
}

pub fn njn_graph_add_effect(t: &mut [u64], action: u32, var: u32, effect: &[u64]) -> u32
    ensures { Does result t.new (doing true t.old (add_effect_of t.old action var effect.now)) }
{
    given::done(graph_builder::add_effect(t, Action(action), Var(var), effect))
}

pub fn njn_graph_new_send<'a>(
    t: &mut [u64],
    count: usize,
    w: &'a [u64],
    x: &'a [u64],
    y: &'a [u64],
    z: &'a [u64],
    out: &mut [u64],
) -> u32
    ensures { Gives result t.new out.new (placing true t.old out.old (new_send_of t.old (chosen w.now x.now y.now z.now) count)) }
{
    if out.len() < given::NUMBER {
        return given::SHORT;
    }
    given::told(graph_builder::new_send(t, count, w, x, y, z), out)
}

pub fn njn_graph_new_receive(t: &mut [u64], vars: &[u32], out: &mut [u64]) -> u32
    ensures { Gives result t.new out.new (placing true t.old out.old (new_receive_of t.old (vars_from vars.now))) }
{
    if out.len() < given::NUMBER {
        return given::SHORT;
    }
    given::told(graph_builder::new_receive(t, handed::vars_of(vars)), out)
}

pub fn njn_graph_new_timed_location(t: &mut [u64], invariants: &[u64], out: &mut [u64]) -> u32
    ensures { Gives result t.new out.new (placing (limits_known invariants.now) t.old out.old (new_timed_location_of t.old (limits_from invariants.now))) }
{
    if out.len() < given::NUMBER {
        return given::SHORT;
    }
    if !handed::limits_known(invariants) {
        return given::MALFORMED;
    }
    let limits = handed::limits_of(invariants);
    given::told(graph_builder::new_timed_location(t, limits), out)
}

pub fn njn_graph_new_process(t: &mut [u64], location: u32) -> u32
    ensures { Does result t.new (doing true t.old (new_process_of t.old location)) }
{
    given::done(graph_builder::new_process(t, Location(location)))
}

pub fn njn_graph_new_initial_timed_location(
    t: &mut [u64],
    invariants: &[u64],
    out: &mut [u64],
) -> u32
    ensures { Gives result t.new out.new (placing (limits_known invariants.now) t.old out.old (new_initial_of t.old (limits_from invariants.now))) }
{
    if out.len() < given::NUMBER {
        return given::SHORT;
    }
    if !handed::limits_known(invariants) {
        return given::MALFORMED;
    }
    let limits = handed::limits_of(invariants);
    given::told(graph_builder::new_initial_timed_location(t, limits), out)
}

pub fn njn_graph_add_timed_transition(
    t: &mut [u64],
    pre: u32,
    action: u32,
    post: u32,
    guarded: bool,
    guard: &[u64],
    limits: &[u64],
) -> u32
    ensures { Does result t.new (doing (limits_known limits.now) t.old (add_transition_of t.old pre action post guarded guard.now (limits_from limits.now))) }
{
    if !handed::limits_known(limits) {
        return given::MALFORMED;
    }
    let read = handed::limits_of(limits);
    given::done(graph_builder::add_timed_transition(
        t,
        Location(pre),
        Action(action),
        Location(post),
        guarded,
        guard,
        read,
    ))
}

pub fn njn_graph_build(t: &[u64]) -> u32
    ensures { result ≡ (done_told (build_of t.now)).number }
{
    given::done(graph_builder::build(t))
}
