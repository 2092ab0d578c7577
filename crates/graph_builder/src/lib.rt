// Building one graph on a lent table. A refusal leaves every word as it was. Calls that place a part are a check, its number, a write and
// the answer: a generic one would take the first three as closures, and each call would be as long as it is.
#![tactic(auto)]

ghost use Rattle.std.specs.Prelude.{◌≡◌};
ghost use Rattle.graph_tables.specs.Words.{epsilon};
ghost use Rattle.graph_tables.specs.Handed.{no_limits};
ghost use Rattle.graph_edits.specs.Edits.{chosen};
ghost use Rattle.graph_builder.specs.Building.{payload_of, empty_of, new_var_of, var_type_of, new_clock_of, new_action_of, new_process_of};
ghost use Rattle.graph_builder.specs.Building.{build_of, add_reset_of, add_effect_of, new_send_of, new_receive_of, new_timed_location_of};
ghost use Rattle.graph_builder.specs.Building.{new_initial_of, add_transition_of};

use grammar::bits;
use grammar::values::{Type, Val};
use graph_checks::checks;
use graph_edits::inner::{actions, locations, transitions, variables};
use graph_tables::answers::Answer;
use graph_tables::handed::{Limits, Vars};
use graph_tables::ids::{Action, Clock, Location, Var};
use graph_tables::refusals::Refusal;
use graph_tables::{formed, inner, layout, sizes};

// The value of a variable at the start, as 32 bits.
fn payload(v: Val) -> u64
    ensures { result ≡ payload_of v }
{
    match v {
        Val::Boolean(b) => b as u64,
        Val::Integer(n) => bits::bits_of(n) as u64,
    }
}

// An empty graph: the counts alone are written.
#[tactic(auto, unfolding(crate::specs::Building::empty_of, laws::specs::Ladder::unless))]
pub fn new(t: &mut [u64]) -> Answer<()>
    ensures { (result ≡ (empty_of t.old).answer) × (t.new ≡ (empty_of t.old).table) }
{
    if t.len() != sizes::WORDS {
        return Err(Refusal::BadState);
    }
    t[layout::VARIABLES] = 0;
    t[layout::CLOCKS] = 0;
    t[layout::LOCATIONS] = 0;
    t[layout::ACTIONS] = 0;
    t[layout::PROCESSES] = 0;
    t[layout::TRANSITIONS] = 0;
    Ok(())
}

#[tactic(auto, unfolding(crate::specs::Building::new_var_of))]
pub fn new_var(t: &mut [u64], val: Val) -> Answer<u32>
    ensures { (result ≡ (new_var_of t.old val).answer) × (t.new ≡ (new_var_of t.old val).table) }
{
    checks::var_check(t)?;
    let n = inner::variable_count(t);
    let kind = val.kind().word();
    let value = payload(val);
    variables::put_var(t, kind, value);
    Ok(n as u32)
}

#[tactic(auto, using(crate::proofs::BuildingLaws::words_of, crate::proofs::BuildingLaws::counted_of), unfolding(crate::specs::Building::var_type_of, laws::specs::Ladder::unless))]
pub fn var_type(t: &[u64], var: Var) -> Answer<Type>
    ensures { result ≡ var_type_of t.now var.0 }
{
    if !formed::well_formed(t, true) {
        return Err(Refusal::BadState);
    }
    let v = var.0 as usize;
    if inner::variable_count(t) <= v {
        return Err(Refusal::MissingVar);
    }
    if inner::kind_at(t, v) == 0 {
        return Ok(Type::Boolean);
    }
    Ok(Type::Integer)
}

#[tactic(auto, unfolding(crate::specs::Building::new_clock_of))]
pub fn new_clock(t: &mut [u64]) -> Answer<u32>
    ensures { (result ≡ (new_clock_of t.old).answer) × (t.new ≡ (new_clock_of t.old).table) }
{
    checks::clock_check(t)?;
    let n = inner::clock_count(t);
    variables::put_clock(t);
    Ok(n as u32)
}

// A plain action, without effects and resets.
#[tactic(auto, unfolding(crate::specs::Building::new_action_of))]
pub fn new_action(t: &mut [u64]) -> Answer<u32>
    ensures { (result ≡ (new_action_of t.old).answer) × (t.new ≡ (new_action_of t.old).table) }
{
    checks::action_check(t)?;
    let n = inner::action_count(t);
    actions::put_action(t, layout::PLAIN, 0);
    Ok(n as u32)
}

// A location without invariants.
pub fn new_location(t: &mut [u64]) -> Answer<u32>
    ensures { (result ≡ (new_timed_location_of t.old no_limits).answer)
        × (t.new ≡ (new_timed_location_of t.old no_limits).table) }
{
    new_timed_location(t, Limits::none())
}

// A process that starts at a location. One location may hold several.
#[tactic(auto, unfolding(crate::specs::Building::new_process_of))]
pub fn new_process(t: &mut [u64], location: Location) -> Answer<()>
    ensures { (result ≡ (new_process_of t.old location.0).answer)
        × (t.new ≡ (new_process_of t.old location.0).table) }
{
    let l = location.0;
    checks::process_check(t, l)?;
    locations::put_process(t, l as usize);
    Ok(())
}

// Whether the graph can be run: it has a process.
#[tactic(auto, using(crate::proofs::BuildingLaws::words_of), unfolding(crate::specs::Building::build_of, laws::specs::Ladder::unless))]
pub fn build(t: &[u64]) -> Answer<()>
    ensures { result ≡ build_of t.now }
{
    if !formed::well_formed(t, true) {
        return Err(Refusal::BadState);
    }
    if inner::process_count(t) == 0 {
        return Err(Refusal::NoProcess);
    }
    Ok(())
}

// A clock among the resets of an action, in the order of their numbers.
#[tactic(auto, unfolding(crate::specs::Building::add_reset_of))]
pub fn add_reset(t: &mut [u64], action: Action, clock: Clock) -> Answer<()>
    ensures { (result ≡ (add_reset_of t.old action.0 clock.0).answer)
        × (t.new ≡ (add_reset_of t.old action.0 clock.0).table) }
{
    let a = action.0;
    let c = clock.0;
    checks::reset_check(t, a, c)?;
    actions::put_reset(t, a as usize, c as usize);
    Ok(())
}

// An effect of an action, behind the others.
#[tactic(auto, unfolding(crate::specs::Building::add_effect_of))]
pub fn add_effect(t: &mut [u64], action: Action, var: Var, effect: &[u64]) -> Answer<()>
    ensures { (result ≡ (add_effect_of t.old action.0 var.0 effect.now).answer)
        × (t.new ≡ (add_effect_of t.old action.0 var.0 effect.now).table) }
{
    let a = action.0;
    let v = var.0;
    checks::effect_check(t, a, v, effect)?;
    actions::put_effect(t, a as usize, v as usize, effect);
    Ok(())
}

// A send of the first count of four expressions.
#[tactic(auto, unfolding(crate::specs::Building::new_send_of))]
pub fn new_send<'a>(
    t: &mut [u64],
    count: usize,
    w: &'a [u64],
    x: &'a [u64],
    y: &'a [u64],
    z: &'a [u64],
) -> Answer<u32>
    ensures { (result ≡ (new_send_of t.old (chosen w.now x.now y.now z.now) count).answer)
        × (t.new
        ≡ (new_send_of t.old (chosen w.now x.now y.now z.now) count).table) }
{
    checks::send_check(t, w, x, y, z, count)?;
    let n = inner::action_count(t);
    actions::put_send(t, w, x, y, z, count);
    Ok(n as u32)
}

// A receive into these variables. One may stand twice.
#[tactic(auto, unfolding(crate::specs::Building::new_receive_of))]
pub fn new_receive(t: &mut [u64], vars: Vars) -> Answer<u32>
    ensures { (result ≡ (new_receive_of t.old vars).answer) × (t.new ≡ (new_receive_of t.old vars).table) }
{
    checks::receive_check(t, vars)?;
    let n = inner::action_count(t);
    actions::put_receive(t, vars);
    Ok(n as u32)
}

// A location with these invariants.
#[tactic(auto, unfolding(crate::specs::Building::new_timed_location_of))]
pub fn new_timed_location(t: &mut [u64], invariants: Limits) -> Answer<u32>
    ensures { (result ≡ (new_timed_location_of t.old invariants).answer)
        × (t.new ≡ (new_timed_location_of t.old invariants).table) }
{
    checks::location_check(t, invariants)?;
    let n = inner::location_count(t);
    locations::put_location(t, invariants);
    Ok(n as u32)
}

// A location with these invariants, and a process that starts there.
#[tactic(auto, unfolding(crate::specs::Building::new_initial_of))]
pub fn new_initial_timed_location(t: &mut [u64], invariants: Limits) -> Answer<u32>
    ensures { (result ≡ (new_initial_of t.old invariants).answer) × (t.new ≡ (new_initial_of t.old invariants).table) }
{
    checks::initial_check(t, invariants)?;
    let n = inner::location_count(t);
    locations::put_process(t, n);
    locations::put_location(t, invariants);
    Ok(n as u32)
}

pub fn new_initial_location(t: &mut [u64]) -> Answer<u32>
    ensures { (result ≡ (new_initial_of t.old no_limits).answer) × (t.new ≡ (new_initial_of t.old no_limits).table) }
{
    new_initial_timed_location(t, Limits::none())
}

// A transition from pre by an action to post, if its guard is true, within its limits. Without a guard its items are not
// looked at.
#[tactic(auto, unfolding(crate::specs::Building::add_transition_of))]
pub fn add_timed_transition(
    t: &mut [u64],
    pre: Location,
    action: Action,
    post: Location,
    guarded: bool,
    guard: &[u64],
    limits: Limits,
) -> Answer<()>
    ensures { (result ≡ (add_transition_of t.old pre.0 action.0 post.0 guarded guard.now limits).answer)
        × (t.new ≡ (add_transition_of t.old pre.0 action.0 post.0 guarded guard.now limits).table) }
{
    let l = pre.0;
    let a = action.0;
    let m = post.0;
    checks::transition_check(t, l, a, m, guarded, guard, limits)?;
    let key = inner::key_with(l as u64, a, m as u64);
    if guarded {
        transitions::put_transition(t, key, guard, limits);
        return Ok(());
    }
    transitions::put_transition(t, key, &guard[0..0], limits);
    Ok(())
}

pub fn add_transition(
    t: &mut [u64],
    pre: Location,
    action: Action,
    post: Location,
    guarded: bool,
    guard: &[u64],
) -> Answer<()>
    ensures { (result ≡ (add_transition_of t.old pre.0 action.0 post.0 guarded guard.now no_limits).answer)
        × (t.new ≡ (add_transition_of t.old pre.0 action.0 post.0 guarded guard.now no_limits).table) }
{
    add_timed_transition(t, pre, action, post, guarded, guard, Limits::none())
}

// A transition by the reserved action.
pub fn add_autonomous_timed_transition(
    t: &mut [u64],
    pre: Location,
    post: Location,
    guarded: bool,
    guard: &[u64],
    limits: Limits,
) -> Answer<()>
    ensures { (result ≡ (add_transition_of t.old pre.0 epsilon post.0 guarded guard.now limits).answer)
        × (t.new ≡ (add_transition_of t.old pre.0 epsilon post.0 guarded guard.now limits).table) }
{
    add_timed_transition(t, pre, Action::EPSILON, post, guarded, guard, limits)
}

pub fn add_autonomous_transition(
    t: &mut [u64],
    pre: Location,
    post: Location,
    guarded: bool,
    guard: &[u64],
) -> Answer<()>
    ensures { (result ≡ (add_transition_of t.old pre.0 epsilon post.0 guarded guard.now no_limits).answer)
        × (t.new ≡ (add_transition_of t.old pre.0 epsilon post.0 guarded guard.now no_limits).table) }
{
    add_transition(t, pre, Action::EPSILON, post, guarded, guard)
}
