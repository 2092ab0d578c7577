// Building one graph of a system, and its communications.
ghost use Rattle.std.specs.Prelude.{◌≡◌, true};
ghost use Rattle.grammar.specs.Slots.{val_of, is_value};
ghost use Rattle.graph_edits.specs.Edits.{chosen};
ghost use Rattle.system_tables.specs.declared.ids.Channel.{Channel};
ghost use Rattle.system_tables.specs.declared.ids.Message.TheVariants.{ProbeEmptyQueue, ProbeFullQueue};
ghost use Rattle.system_builder.specs.Graphs.{new_var_on, new_clock_on, new_process_on, add_reset_on, add_effect_on, new_timed_location_on};
ghost use Rattle.system_builder.specs.Graphs.{new_initial_on, add_transition_on, var_type_in, new_action_on};
ghost use Rattle.system_builder.specs.Messages.{new_send_on, new_receive_on, new_probe_on};
ghost use Rattle.c_words.specs.Told.{number_words, var_type_told};
ghost use Rattle.c_words.specs.Given.{placing, doing, reading, Gives, Does, Tells};
ghost use Rattle.c_words.specs.Handed.{vars_from, limits_known, limits_from};

use c_words::inner::{given, handed};
use grammar::inner::slots;
use graph_tables::ids::{Action, Clock, Location, Var};
use system_builder::{messages, on_graph};
use system_tables::ids::{Channel, PgId};

pub fn njn_system_new_var(t: &mut [u64], pg: u32, kind: u64, payload: u64, out: &mut [u64]) -> u32
    ensures { Gives result t.new out.new (placing (is_value kind payload) t.old out.old (new_var_on t.old pg (val_of kind payload))) }
{
    if out.len() < given::NUMBER {
        return given::SHORT;
    }
    if !slots::is_value(kind, payload) {
        return given::MALFORMED;
    }
    let value = slots::value_of(kind, payload);
    given::told(on_graph::new_var(t, PgId(pg), value), out)
}

pub fn njn_system_var_type(t: &[u64], pg: u32, var: u32, out: &mut [u64]) -> u32
    ensures { Tells result out.new (reading number_words out.old (var_type_told (var_type_in t.now pg var))) }
{
    if out.len() < given::NUMBER {
        return given::SHORT;
    }
    given::told(on_graph::var_type(t, PgId(pg), Var(var)), out)
}

pub fn njn_system_new_clock(t: &mut [u64], pg: u32, out: &mut [u64]) -> u32
    ensures { Gives result t.new out.new (placing true t.old out.old (new_clock_on t.old pg)) }
{
    if out.len() < given::NUMBER {
        return given::SHORT;
    }
    given::told(on_graph::new_clock(t, PgId(pg)), out)
}

pub fn njn_system_new_action(t: &mut [u64], pg: u32, out: &mut [u64]) -> u32
    ensures { Gives result t.new out.new (placing true t.old out.old (new_action_on t.old pg)) }
{
    if out.len() < given::NUMBER {
        return given::SHORT;
    }
    given::told(on_graph::new_action(t, PgId(pg)), out)
}

pub fn njn_system_add_reset(t: &mut [u64], pg: u32, action: u32, clock: u32) -> u32
    ensures { Does result t.new (doing true t.old (add_reset_on t.old pg action clock)) }
{
    given::done(on_graph::add_reset(t, PgId(pg), Action(action), Clock(clock)))
}

pub fn njn_system_add_effect(t: &mut [u64], pg: u32, action: u32, var: u32, effect: &[u64]) -> u32
    ensures { Does result t.new (doing true t.old (add_effect_on t.old pg action var effect.now)) }
{
    given::done(on_graph::add_effect(t, PgId(pg), Action(action), Var(var), effect))
}

pub fn njn_system_new_timed_location(
    t: &mut [u64],
    pg: u32,
    invariants: &[u64],
    out: &mut [u64],
) -> u32
    ensures { Gives result t.new out.new (placing (limits_known invariants.now) t.old out.old (new_timed_location_on t.old pg (limits_from invariants.now))) }
{
    if out.len() < given::NUMBER {
        return given::SHORT;
    }
    if !handed::limits_known(invariants) {
        return given::MALFORMED;
    }
    let limits = handed::limits_of(invariants);
    given::told(on_graph::new_timed_location(t, PgId(pg), limits), out)
}

pub fn njn_system_new_process(t: &mut [u64], pg: u32, location: u32) -> u32
    ensures { Does result t.new (doing true t.old (new_process_on t.old pg location)) }
{
    given::done(on_graph::new_process(t, PgId(pg), Location(location)))
}

pub fn njn_system_new_initial_timed_location(
    t: &mut [u64],
    pg: u32,
    invariants: &[u64],
    out: &mut [u64],
) -> u32
    ensures { Gives result t.new out.new (placing (limits_known invariants.now) t.old out.old (new_initial_on t.old pg (limits_from invariants.now))) }
{
    if out.len() < given::NUMBER {
        return given::SHORT;
    }
    if !handed::limits_known(invariants) {
        return given::MALFORMED;
    }
    let limits = handed::limits_of(invariants);
    given::told(
        on_graph::new_initial_timed_location(t, PgId(pg), limits),
        out,
    )
}

pub fn njn_system_add_timed_transition(
    t: &mut [u64],
    pg: u32,
    pre: u32,
    action: u32,
    post: u32,
    guarded: bool,
    guard: &[u64],
    limits: &[u64],
) -> u32
    ensures { Does result t.new (doing (limits_known limits.now) t.old (add_transition_on t.old pg pre action post guarded guard.now (limits_from limits.now))) }
{
    if !handed::limits_known(limits) {
        return given::MALFORMED;
    }
    let read = handed::limits_of(limits);
    given::done(on_graph::add_timed_transition(
        t,
        PgId(pg),
        Location(pre),
        Action(action),
        Location(post),
        guarded,
        guard,
        read,
    ))
}

pub fn njn_system_new_send<'a>(
    t: &mut [u64],
    pg: u32,
    channel: u32,
    count: usize,
    w: &'a [u64],
    x: &'a [u64],
    y: &'a [u64],
    z: &'a [u64],
    out: &mut [u64],
) -> u32
    ensures { Gives result t.new out.new (placing true t.old out.old (new_send_on t.old pg (record { 0 = channel }) (chosen w.now x.now y.now z.now) count)) }
{
    if out.len() < given::NUMBER {
        return given::SHORT;
    }
    given::told(
        messages::new_send(t, PgId(pg), Channel(channel), count, w, x, y, z),
        out,
    )
}

pub fn njn_system_new_receive(
    t: &mut [u64],
    pg: u32,
    channel: u32,
    vars: &[u32],
    out: &mut [u64],
) -> u32
    ensures { Gives result t.new out.new (placing true t.old out.old (new_receive_on t.old pg (record { 0 = channel }) (vars_from vars.now))) }
{
    if out.len() < given::NUMBER {
        return given::SHORT;
    }
    given::told(
        messages::new_receive(t, PgId(pg), Channel(channel), handed::vars_of(vars)),
        out,
    )
}

pub fn njn_system_new_probe_empty_queue(
    t: &mut [u64],
    pg: u32,
    channel: u32,
    out: &mut [u64],
) -> u32
    ensures { Gives result t.new out.new (placing true t.old out.old (new_probe_on t.old pg ProbeEmptyQueue (record { 0 = channel }))) }
{
    if out.len() < given::NUMBER {
        return given::SHORT;
    }
    given::told(
        messages::new_probe_empty_queue(t, PgId(pg), Channel(channel)),
        out,
    )
}

pub fn njn_system_new_probe_full_queue(t: &mut [u64], pg: u32, channel: u32, out: &mut [u64]) -> u32
    ensures { Gives result t.new out.new (placing true t.old out.old (new_probe_on t.old pg ProbeFullQueue (record { 0 = channel }))) }
{
    if out.len() < given::NUMBER {
        return given::SHORT;
    }
    given::told(
        messages::new_probe_full_queue(t, PgId(pg), Channel(channel)),
        out,
    )
}
