// The system that is run: one graph, with a clock c0 and an integer v0 = 0. It starts at L0. Its action A0 makes v0 one more and sets
// c0 back, and leads to L1 if v0 < 2. L1 is left for L0 by EPSILON if c0 >= 3, and in it c0 <= 5.
use channel_system::run;
use grammar::items::{Binary, Item};
use grammar::values::Val;
use graph_tables::answers::Answer;
use graph_tables::handed::{Limit, Limits};
use graph_tables::ids::{Action, Clock, Location, Var};
use graph_tables::sizes;
use system_builder;
use system_builder::on_graph;
use system_tables::ids::PgId;
use time::{Bound, TimeRange};

pub const GRAPH: PgId = PgId(0);

const C0: Clock = Clock(0);

const V0: Var = Var(0);

const L0: Location = Location(0);

const L1: Location = Location(1);

const A0: Action = Action(0);

// A limit of c0 alone.
fn limit(start: Bound, end: Bound) -> Limits {
    let one = Limit {
        clock: C0,
        range: TimeRange::new(start, end),
    };
    Limits {
        limits: [one; sizes::LIMITS],
        count: 1,
    }
}

// v0, a number, and what is done with them.
fn with_v0(number: i32, operation: Binary) -> [u64; 3] {
    let variable = Item::Variable(V0.0);
    let constant = Item::Constant(Val::Integer(number));
    let last = Item::Binary(operation);
    [variable.word(), constant.word(), last.word()]
}

fn add_parts(t: &mut [u64]) -> Answer<()> {
    on_graph::new_clock(t, GRAPH)?;
    on_graph::new_var(t, GRAPH, Val::Integer(0))?;
    on_graph::new_initial_location(t, GRAPH)?;
    on_graph::new_timed_location(t, GRAPH, limit(Bound::Unbounded, Bound::Included(5)))?;
    on_graph::new_action(t, GRAPH)?;
    Ok(())
}

fn add_effects(t: &mut [u64]) -> Answer<()> {
    let more = with_v0(1, Binary::Add);
    on_graph::add_effect(t, GRAPH, A0, V0, &more)?;
    on_graph::add_reset(t, GRAPH, A0, C0)
}

fn add_transitions(t: &mut [u64]) -> Answer<()> {
    let few = with_v0(2, Binary::Less);
    let none = [0u64; 1];
    let later = limit(Bound::Included(3), Bound::Unbounded);
    on_graph::add_transition(t, GRAPH, L0, A0, L1, true, &few)?;
    on_graph::add_autonomous_timed_transition(t, GRAPH, L1, L0, false, &none[0..0], later)
}

// Builds it, and makes its state.
pub fn start(t: &mut [u64], s: &mut [u64]) -> Answer<()> {
    system_builder::new(t)?;
    system_builder::new_program_graph(t)?;
    add_parts(t)?;
    add_effects(t)?;
    add_transitions(t)?;
    system_builder::build(t)?;
    run::new_instance(t, s)
}
