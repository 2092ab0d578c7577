// What each building call asks, in the order of its refusals. Nothing is written here.
// The table is not a type with an invariant here: callers lend any words, and a malformed table is refused (32).
// The scans by index below that are not `all` hand on limits or four expressions: with closures a location costs up to 9 per cent more
// instructions and a send up to 9, 26 where it sends nothing.
ghost use Rattle.std.specs.Prelude.{◌≡◌, not, ℕ, ◌≤◌, ◌<◌, length};
ghost use Rattle.laws.specs.Below.{all_below, sum_below};
ghost use Rattle.grammar.specs.Draws.{draws_of};
ghost use Rattle.grammar.specs.Typing.{type_of, too_deep};
ghost use Rattle.graph_tables.specs.Sizes.{limit_room, message_room, item_room, plain_kind};
ghost use Rattle.graph_tables.specs.Words.{action_count, action_kind, kinds_of, Words, location_count};
ghost use Rattle.graph_tables.specs.Sound.{Sound};
ghost use Rattle.graph_tables.specs.Answers.{admitted};
ghost use Rattle.graph_edits.specs.Edits.{chosen};
ghost use Rattle.graph_checks.specs.Checks.{room_for, each_below, var_check, clock_check, action_check, zero_at, place_check, process_check};
ghost use Rattle.graph_checks.specs.Checks.{clock_known, clocks_known, starts_inside, all_start_inside, limits_check, location_check};
ghost use Rattle.graph_checks.specs.Checks.{start_check, initial_check, plain_check, room_for_reset, reset_check, room_for_effect};
ghost use Rattle.graph_checks.specs.Checks.{assigned_check, action_effect_check, known_effect_check, effect_check, typed_check};
ghost use Rattle.graph_checks.specs.Checks.{expression_check, shallow, message_draws, send_room, send_check, var_known, receive_check};
ghost use Rattle.graph_checks.specs.Checks.{ends_check, guard_check, if_guarded, guard_room, conditions_check, transition_check};

use grammar::typing::Typed;
use grammar::{draws, typing};
use graph_edits::inner::actions;
use graph_tables::answers::Answer;
use graph_tables::handed::{Limits, Vars};
use graph_tables::ids::Action;
use graph_tables::inner::tests;
use graph_tables::refusals::Refusal;
use graph_tables::{formed, inner, layout, sizes};

#[tactic(auto, unfolding(laws::specs::Ladder::unless))]
fn room_for(n: usize, size: usize) -> Answer<()>
    ensures { result ≡ room_for n size admitted }
{
    if size <= n {
        return Err(Refusal::TableFull);
    }
    Ok(())
}

#[tactic(auto, using(graph_tables::proofs::SoundLaws::sound), unfolding(crate::specs::Checks::var_check, laws::specs::Ladder::unless))]
pub fn var_check(t: &[u64]) -> Answer<()>
    ensures { result ≡ var_check t.now }
{
    if !formed::well_formed(t, true) {
        return Err(Refusal::BadState);
    }
    room_for(inner::variable_count(t), sizes::VARIABLES)
}

#[tactic(auto, using(graph_tables::proofs::SoundLaws::sound), unfolding(crate::specs::Checks::clock_check, laws::specs::Ladder::unless))]
pub fn clock_check(t: &[u64]) -> Answer<()>
    ensures { result ≡ clock_check t.now }
{
    if !formed::well_formed(t, true) {
        return Err(Refusal::BadState);
    }
    room_for(inner::clock_count(t), sizes::CLOCKS)
}

#[tactic(auto, using(graph_tables::proofs::SoundLaws::sound), unfolding(crate::specs::Checks::action_check, laws::specs::Ladder::unless))]
pub fn action_check(t: &[u64]) -> Answer<()>
    ensures { result ≡ action_check t.now }
{
    if !formed::well_formed(t, true) {
        return Err(Refusal::BadState);
    }
    room_for(inner::action_count(t), sizes::ACTIONS)
}

// Whether the invariants of a location contain time 0.
fn zero_at(t: &[u64], l: usize) -> bool
    requires { Sound t.now × (l < location_count t.now) }
    ensures { result ≡ zero_at t.now l }
{
    tests::all_zero_inside(t, inner::invariant_group(l), inner::invariant_count(t, l))
}

// A process at a location that is there.
#[tactic(auto, unfolding(crate::specs::Checks::place_check, laws::specs::Ladder::unless))]
fn place_check(t: &[u64], l: usize) -> Answer<()>
    requires { Sound t.now × (l < location_count t.now) }
    ensures { result ≡ place_check t.now l }
{
    if !zero_at(t, l) {
        return Err(Refusal::Invariant);
    }
    room_for(inner::process_count(t), sizes::PROCESSES)
}

#[tactic(auto, using(graph_tables::proofs::SoundLaws::sound), unfolding(crate::specs::Checks::process_check, laws::specs::Ladder::unless))]
pub fn process_check(t: &[u64], location: u32) -> Answer<()>
    ensures { result ≡ process_check t.now location }
{
    if !formed::well_formed(t, true) {
        return Err(Refusal::BadState);
    }
    if inner::location_count(t) <= location as usize {
        return Err(Refusal::MissingLocation);
    }
    place_check(t, location as usize)
}

#[tactic(auto, unfolding(crate::specs::Checks::clock_known))]
fn clock_known(t: &[u64], handed: Limits, i: usize) -> bool
    requires { Words t.now × (i < limit_room) }
    ensures { result ≡ clock_known t.now handed i }
{
    let limit = handed.limits[i];
    (limit.clock.0 as usize) < inner::clock_count(t)
}

// Whether every handed limit is of a known clock.
fn clocks_known(t: &[u64], handed: Limits) -> bool
    requires { Words t.now × (handed.count ≤ limit_room) }
    ensures { result ≡ clocks_known t.now handed }
{
    for i in 0..handed.count {
        if !clock_known(t, handed, i) {
            return false;
        }
    }
    true
}

#[tactic(auto, unfolding(crate::specs::Checks::starts_inside))]
fn starts_inside(handed: Limits, i: usize) -> bool
    requires { i < limit_room }
    ensures { result ≡ starts_inside handed i }
{
    let limit = handed.limits[i];
    limit.range.contains(0)
}

// Whether every handed limit contains time 0.
fn all_start_inside(handed: Limits) -> bool
    requires { handed.count ≤ limit_room }
    ensures { result ≡ all_start_inside handed }
{
    for i in 0..handed.count {
        if !starts_inside(handed, i) {
            return false;
        }
    }
    true
}

#[tactic(auto, unfolding(crate::specs::Checks::limits_check, laws::specs::Ladder::unless))]
fn limits_check(t: &[u64], handed: Limits) -> Answer<()>
    requires { Sound t.now }
    ensures { result ≡ limits_check t.now handed }
{
    if sizes::LIMITS < handed.count {
        return Err(Refusal::TableFull);
    }
    if !clocks_known(t, handed) {
        return Err(Refusal::MissingClock);
    }
    Ok(())
}

#[tactic(auto, using(graph_tables::proofs::SoundLaws::sound), unfolding(crate::specs::Checks::location_check, laws::specs::Ladder::unless))]
pub fn location_check(t: &[u64], handed: Limits) -> Answer<()>
    ensures { result ≡ location_check t.now handed }
{
    if !formed::well_formed(t, true) {
        return Err(Refusal::BadState);
    }
    limits_check(t, handed)?;
    room_for(inner::location_count(t), sizes::LOCATIONS)
}

// A process at a new location.
#[tactic(auto, unfolding(crate::specs::Checks::start_check, laws::specs::Ladder::unless))]
fn start_check(t: &[u64], handed: Limits) -> Answer<()>
    requires { Sound t.now × (handed.count ≤ limit_room) }
    ensures { result ≡ start_check t.now handed }
{
    if !all_start_inside(handed) {
        return Err(Refusal::Invariant);
    }
    room_for(inner::location_count(t), sizes::LOCATIONS)?;
    room_for(inner::process_count(t), sizes::PROCESSES)
}

#[tactic(auto, using(graph_tables::proofs::SoundLaws::sound, crate::proofs::ReadyParts::limits_ready), unfolding(crate::specs::Checks::initial_check, laws::specs::Ladder::unless))]
pub fn initial_check(t: &[u64], handed: Limits) -> Answer<()>
    ensures { result ≡ initial_check t.now handed }
{
    if !formed::well_formed(t, true) {
        return Err(Refusal::BadState);
    }
    limits_check(t, handed)?;
    start_check(t, handed)
}

// An action that takes resets and effects.
#[tactic(auto, unfolding(crate::specs::Checks::plain_check, laws::specs::Ladder::unless))]
fn plain_check(t: &[u64], a: usize) -> Answer<()>
    requires { Sound t.now }
    ensures { result ≡ plain_check t.now a }
{
    if inner::action_count(t) <= a {
        return Err(Refusal::MissingAction);
    }
    let kind = inner::action_kind(t, a);
    if kind == layout::SEND {
        return Err(Refusal::EffectOnSend);
    }
    if kind == layout::RECEIVE {
        return Err(Refusal::EffectOnReceive);
    }
    Ok(())
}

// A clock among the resets of an action.
#[tactic(auto, unfolding(crate::specs::Checks::room_for_reset, laws::specs::Ladder::unless))]
fn reset_room(t: &[u64], a: usize) -> Answer<()>
    requires { Sound t.now }
    ensures { result ≡ room_for_reset t.now a }
{
    plain_check(t, a)?;
    room_for(inner::reset_count(t, a), sizes::RESETS)
}

#[tactic(auto, using(graph_tables::proofs::SoundLaws::sound), unfolding(crate::specs::Checks::reset_check, laws::specs::Ladder::unless))]
pub fn reset_check(t: &[u64], action: u32, clock: u32) -> Answer<()>
    ensures { result ≡ reset_check t.now action clock }
{
    if !formed::well_formed(t, true) {
        return Err(Refusal::BadState);
    }
    if action == Action::EPSILON.0 {
        return Err(Refusal::NoEffects);
    }
    if inner::clock_count(t) <= clock as usize {
        return Err(Refusal::MissingClock);
    }
    reset_room(t, action as usize)
}

// Room for an effect of a plain action, and for its draws.
#[tactic(auto, unfolding(crate::specs::Checks::room_for_effect, laws::specs::Ladder::unless))]
fn effect_room(t: &[u64], a: usize, typed: Typed, draws: usize) -> Answer<()>
    requires { Sound t.now × (a < action_count t.now) × (action_kind t.now a ≡ plain_kind) × (draws ≤ item_room) }
    ensures { result ≡ room_for_effect t.now a typed draws }
{
    if typed.too_deep() {
        return Err(Refusal::TableFull);
    }
    let n = inner::effect_count(t, a);
    room_for(n, sizes::EFFECTS)?;
    if sizes::DRAWS < tests::all_draws(t, a, n) + draws {
        return Err(Refusal::TableFull);
    }
    Ok(())
}

// What a variable may be assigned.
#[tactic(auto, unfolding(crate::specs::Checks::assigned_check, laws::specs::Ladder::unless))]
fn assigned_check(t: &[u64], v: usize, typed: Typed) -> Answer<()>
    requires { Sound t.now }
    ensures { result ≡ assigned_check t.now v typed }
{
    if typed.too_long() {
        return Err(Refusal::TableFull);
    }
    if !typed.has_kind() {
        return Err(Refusal::Type);
    }
    if inner::variable_count(t) <= v {
        return Err(Refusal::MissingVar);
    }
    if !typed.kinded_as(inner::kind_at(t, v)) {
        return Err(Refusal::TypeMismatch);
    }
    Ok(())
}

#[tactic(auto, unfolding(crate::specs::Checks::action_effect_check, laws::specs::Ladder::unless))]
fn action_effect_check(t: &[u64], a: usize, items: &[u64], typed: Typed) -> Answer<()>
    requires { Sound t.now × (length items.now ≤ item_room) }
    ensures { result ≡ action_effect_check t.now a typed (draws_of items.now) }
{
    plain_check(t, a)?;
    effect_room(t, a, typed, draws::count_draws(items))
}

#[tactic(auto, using(crate::proofs::ReadyActions::assigned_short), unfolding(crate::specs::Checks::known_effect_check, laws::specs::Ladder::unless))]
fn known_effect_check(t: &[u64], a: usize, v: usize, items: &[u64]) -> Answer<()>
    requires { Sound t.now }
    ensures { result ≡ known_effect_check t.now a v items.now }
{
    let typed = typing::type_of(items, inner::kinds_of(t));
    assigned_check(t, v, typed)?;
    action_effect_check(t, a, items, typed)
}

#[tactic(auto, using(graph_tables::proofs::SoundLaws::sound), unfolding(crate::specs::Checks::effect_check, laws::specs::Ladder::unless))]
pub fn effect_check(t: &[u64], action: u32, var: u32, items: &[u64]) -> Answer<()>
    ensures { result ≡ effect_check t.now action var items.now }
{
    if !formed::well_formed(t, true) {
        return Err(Refusal::BadState);
    }
    if action == Action::EPSILON.0 {
        return Err(Refusal::NoEffects);
    }
    known_effect_check(t, action as usize, var as usize, items)
}

#[tactic(auto, unfolding(crate::specs::Checks::typed_check, laws::specs::Ladder::unless))]
fn expression_check(items: &[u64], kinds: &[u64]) -> Answer<()>
    ensures { result ≡ typed_check (type_of kinds.now items.now) }
{
    let typed = typing::type_of(items, kinds);
    if typed.too_long() {
        return Err(Refusal::TableFull);
    }
    if !typed.has_kind() {
        return Err(Refusal::Type);
    }
    Ok(())
}

fn message_check<'a>(
    t: &[u64],
    w: &'a [u64],
    x: &'a [u64],
    y: &'a [u64],
    z: &'a [u64],
    count: usize,
) -> Answer<()>
    requires { Sound t.now }
    ensures { result
        ≡ each_below count (expression_check (kinds_of t.now) (chosen w.now x.now y.now
        z.now)) }
{
    for i in 0..count {
        expression_check(actions::choose(w, x, y, z, i), inner::kinds_of(t))?;
    }
    Ok(())
}

fn is_shallow(items: &[u64], kinds: &[u64]) -> bool
    ensures { result ≡ not (too_deep (type_of kinds.now items.now)) }
{
    !typing::type_of(items, kinds).too_deep()
}

fn all_shallow<'a>(
    t: &[u64],
    w: &'a [u64],
    x: &'a [u64],
    y: &'a [u64],
    z: &'a [u64],
    count: usize,
) -> bool
    requires { Sound t.now }
    ensures { result
        ≡ all_below count (shallow (kinds_of t.now) (chosen w.now x.now y.now z.now)) }
{
    for i in 0..count {
        if !is_shallow(actions::choose(w, x, y, z, i), inner::kinds_of(t)) {
            return false;
        }
    }
    true
}

fn message_draws<'a>(w: &'a [u64], x: &'a [u64], y: &'a [u64], z: &'a [u64], count: usize) -> usize
    requires { (count ≤ message_room) × ((i : ℕ) → i < count → length (chosen w.now x.now y.now z.now i) ≤ item_room) }
    ensures { result ≡ sum_below count (message_draws (chosen w.now x.now y.now z.now)) }
{
    let mut sum: usize = 0;
    for i in 0..count {
        sum += draws::count_draws(actions::choose(w, x, y, z, i));
    }
    sum
}

#[tactic(auto, unfolding(crate::specs::Checks::send_room, laws::specs::Ladder::unless))]
fn send_room<'a>(
    t: &[u64],
    w: &'a [u64],
    x: &'a [u64],
    y: &'a [u64],
    z: &'a [u64],
    count: usize,
) -> Answer<()>
    requires { Sound t.now × (count ≤ message_room) × ((i : ℕ) → i < count → length (chosen w.now x.now y.now z.now i) ≤ item_room) }
    ensures { result ≡ send_room t.now (chosen w.now x.now y.now z.now) count }
{
    if !all_shallow(t, w, x, y, z, count) {
        return Err(Refusal::TableFull);
    }
    if sizes::DRAWS < message_draws(w, x, y, z, count) {
        return Err(Refusal::TableFull);
    }
    room_for(inner::action_count(t), sizes::ACTIONS)
}

#[tactic(auto, using(graph_tables::proofs::SoundLaws::sound), unfolding(crate::specs::Checks::send_check, laws::specs::Ladder::unless))]
pub fn send_check<'a>(
    t: &[u64],
    w: &'a [u64],
    x: &'a [u64],
    y: &'a [u64],
    z: &'a [u64],
    count: usize,
) -> Answer<()>
    ensures { result ≡ send_check t.now (chosen w.now x.now y.now z.now) count }
{
    if !formed::well_formed(t, true) {
        return Err(Refusal::BadState);
    }
    if sizes::MESSAGE < count {
        return Err(Refusal::TableFull);
    }
    message_check(t, w, x, y, z, count)?;
    send_room(t, w, x, y, z, count)
}

#[tactic(auto, unfolding(crate::specs::Checks::var_known))]
fn var_known(t: &[u64], handed: Vars, i: usize) -> bool
    requires { Sound t.now × (i < message_room) }
    ensures { result ≡ var_known t.now handed i }
{
    let var = handed.vars[i];
    (var.0 as usize) < inner::variable_count(t)
}

fn vars_known(t: &[u64], handed: Vars) -> bool
    requires { Sound t.now × (handed.count ≤ message_room) }
    ensures { result ≡ all_below handed.count (var_known t.now handed) }
{
    (0..handed.count).all(|i| var_known(t, handed, i))
}

#[tactic(auto, using(graph_tables::proofs::SoundLaws::sound), unfolding(crate::specs::Checks::receive_check, laws::specs::Ladder::unless))]
pub fn receive_check(t: &[u64], handed: Vars) -> Answer<()>
    ensures { result ≡ receive_check t.now handed }
{
    if !formed::well_formed(t, true) {
        return Err(Refusal::BadState);
    }
    if sizes::MESSAGE < handed.count {
        return Err(Refusal::TableFull);
    }
    if !vars_known(t, handed) {
        return Err(Refusal::MissingVar);
    }
    room_for(inner::action_count(t), sizes::ACTIONS)
}

#[tactic(auto, unfolding(crate::specs::Checks::ends_check, laws::specs::Ladder::unless))]
fn ends_check(t: &[u64], pre: u32, action: u32, post: u32) -> Answer<()>
    requires { Sound t.now }
    ensures { result ≡ ends_check t.now pre action post }
{
    let n = inner::location_count(t);
    if n <= pre as usize {
        return Err(Refusal::MissingLocation);
    }
    if n <= post as usize {
        return Err(Refusal::MissingLocation);
    }
    if !tests::action_known(t, action) {
        return Err(Refusal::MissingAction);
    }
    Ok(())
}

// A guard is a boolean without draws.
#[tactic(auto, unfolding(crate::specs::Checks::guard_check, laws::specs::Ladder::unless))]
fn guard_check(t: &[u64], items: &[u64]) -> Answer<()>
    requires { Sound t.now }
    ensures { result ≡ guard_check t.now items.now }
{
    let typed = typing::type_of(items, inner::kinds_of(t));
    if typed.too_long() {
        return Err(Refusal::TableFull);
    }
    if !typed.kinded_as(layout::BOOLEAN) {
        return Err(Refusal::Type);
    }
    if draws::has_draws(items) {
        return Err(Refusal::Type);
    }
    if typed.too_deep() {
        return Err(Refusal::TableFull);
    }
    Ok(())
}

fn if_guarded(t: &[u64], guarded: bool, items: &[u64]) -> Answer<()>
    requires { Sound t.now }
    ensures { result ≡ if_guarded guarded (guard_check t.now items.now) }
{
    if guarded {
        return guard_check(t, items);
    }
    Ok(())
}

#[tactic(auto, unfolding(crate::specs::Checks::guard_room, laws::specs::Ladder::unless))]
fn guard_room(t: &[u64], guarded: bool, items: &[u64]) -> Answer<()>
    requires { Sound t.now }
    ensures { result ≡ guard_room t.now guarded items.now }
{
    if_guarded(t, guarded, items)?;
    room_for(inner::transition_count(t), sizes::TRANSITIONS)
}

#[tactic(auto, unfolding(crate::specs::Checks::conditions_check, laws::specs::Ladder::unless))]
fn conditions_check(t: &[u64], guarded: bool, items: &[u64], handed: Limits) -> Answer<()>
    requires { Sound t.now }
    ensures { result ≡ conditions_check t.now guarded items.now handed }
{
    limits_check(t, handed)?;
    guard_room(t, guarded, items)
}

#[tactic(auto, using(graph_tables::proofs::SoundLaws::sound), unfolding(crate::specs::Checks::transition_check, laws::specs::Ladder::unless))]
pub fn transition_check(
    t: &[u64],
    pre: u32,
    action: u32,
    post: u32,
    guarded: bool,
    items: &[u64],
    handed: Limits,
) -> Answer<()>
    ensures { result ≡ transition_check t.now pre action post guarded items.now handed }
{
    if !formed::well_formed(t, true) {
        return Err(Refusal::BadState);
    }
    ends_check(t, pre, action, post)?;
    conditions_check(t, guarded, items, handed)
}
