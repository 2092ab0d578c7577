// Building a graph.
ghost use Rattle.std.specs.Prelude.{◌≡◌, true};
ghost use Rattle.grammar.specs.Slots.{val_of, is_value};
ghost use Rattle.graph_edits.specs.Edits.{chosen};
ghost use Rattle.graph_builder.specs.Building.{empty_of, new_var_of, var_type_of, new_clock_of, new_action_of, new_process_of, build_of, add_reset_of};
ghost use Rattle.graph_builder.specs.Building.{add_effect_of, new_send_of, new_receive_of, new_timed_location_of, new_initial_of, add_transition_of};
ghost use Rattle.c_words.specs.Told.{number_words, done_told, var_type_told};
ghost use Rattle.c_words.specs.Given.{placing, doing, reading, Gives, Does, Tells};
ghost use Rattle.c_words.specs.Handed.{vars_from, limits_known, limits_from};

#[unsafe(no_mangle)]
pub extern "C" fn njn_graph_new(t: &mut [u64]) -> u32
    ensures { Does result t.new (doing true t.old (empty_of t.old)) }
{
    export::graphs::njn_graph_new(t)
}

#[unsafe(no_mangle)]
pub extern "C" fn njn_graph_new_var(t: &mut [u64], kind: u64, payload: u64, out: &mut [u64]) -> u32
    ensures { Gives result t.new out.new (placing (is_value kind payload) t.old out.old (new_var_of t.old (val_of kind payload))) }
{
    export::graphs::njn_graph_new_var(t, kind, payload, out)
}

#[unsafe(no_mangle)]
pub extern "C" fn njn_graph_var_type(t: &[u64], var: u32, out: &mut [u64]) -> u32
    ensures { Tells result out.new (reading number_words out.old (var_type_told (var_type_of t.now var))) }
{
    export::graphs::njn_graph_var_type(t, var, out)
}

#[unsafe(no_mangle)]
pub extern "C" fn njn_graph_new_clock(t: &mut [u64], out: &mut [u64]) -> u32
    ensures { Gives result t.new out.new (placing true t.old out.old (new_clock_of t.old)) }
{
    export::graphs::njn_graph_new_clock(t, out)
}

#[unsafe(no_mangle)]
pub extern "C" fn njn_graph_new_action(t: &mut [u64], out: &mut [u64]) -> u32
    ensures { Gives result t.new out.new (placing true t.old out.old (new_action_of t.old)) }
{
    export::graphs::njn_graph_new_action(t, out)
}

#[unsafe(no_mangle)]
pub extern "C" fn njn_graph_add_reset(t: &mut [u64], action: u32, clock: u32) -> u32
    ensures { Does result t.new (doing true t.old (add_reset_of t.old action clock)) }
{
    export::graphs::njn_graph_add_reset(t, action, clock)
}

#[unsafe(no_mangle)]
pub extern "C" fn njn_graph_add_effect(t: &mut [u64], action: u32, var: u32, effect: &[u64]) -> u32
    ensures { Does result t.new (doing true t.old (add_effect_of t.old action var effect.now)) }
{
    export::graphs::njn_graph_add_effect(t, action, var, effect)
}

#[unsafe(no_mangle)]
pub extern "C" fn njn_graph_new_send<'a>(
    t: &mut [u64],
    count: usize,
    w: &'a [u64],
    x: &'a [u64],
    y: &'a [u64],
    z: &'a [u64],
    out: &mut [u64],
) -> u32
    ensures { Gives result t.new out.new (placing true t.old out.old (new_send_of t.old (chosen w.now x.now y.now z.now) count)) }
{
    export::graphs::njn_graph_new_send(t, count, w, x, y, z, out)
}

#[unsafe(no_mangle)]
pub extern "C" fn njn_graph_new_receive(t: &mut [u64], vars: &[u32], out: &mut [u64]) -> u32
    ensures { Gives result t.new out.new (placing true t.old out.old (new_receive_of t.old (vars_from vars.now))) }
{
    export::graphs::njn_graph_new_receive(t, vars, out)
}

#[unsafe(no_mangle)]
pub extern "C" fn njn_graph_new_timed_location(
    t: &mut [u64],
    invariants: &[u64],
    out: &mut [u64],
) -> u32
    ensures { Gives result t.new out.new (placing (limits_known invariants.now) t.old out.old (new_timed_location_of t.old (limits_from invariants.now))) }
{
    export::graphs::njn_graph_new_timed_location(t, invariants, out)
}

#[unsafe(no_mangle)]
pub extern "C" fn njn_graph_new_process(t: &mut [u64], location: u32) -> u32
    ensures { Does result t.new (doing true t.old (new_process_of t.old location)) }
{
    export::graphs::njn_graph_new_process(t, location)
}

#[unsafe(no_mangle)]
pub extern "C" fn njn_graph_new_initial_timed_location(
    t: &mut [u64],
    invariants: &[u64],
    out: &mut [u64],
) -> u32
    ensures { Gives result t.new out.new (placing (limits_known invariants.now) t.old out.old (new_initial_of t.old (limits_from invariants.now))) }
{
    export::graphs::njn_graph_new_initial_timed_location(t, invariants, out)
}

#[unsafe(no_mangle)]
pub extern "C" fn njn_graph_add_timed_transition(
    t: &mut [u64],
    pre: u32,
    action: u32,
    post: u32,
    guarded: bool,
    guard: &[u64],
    limits: &[u64],
) -> u32
    ensures { Does result t.new (doing (limits_known limits.now) t.old (add_transition_of t.old pre action post guarded guard.now (limits_from limits.now))) }
{
    export::graphs::njn_graph_add_timed_transition(t, pre, action, post, guarded, guard, limits)
}

#[unsafe(no_mangle)]
pub extern "C" fn njn_graph_build(t: &[u64]) -> u32
    ensures { result ≡ (done_told (build_of t.now)).number }
{
    export::graphs::njn_graph_build(t)
}
