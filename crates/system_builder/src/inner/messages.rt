// What a send or a receive hands, held to the channel: 5. Where the graph's own checks object first there is nothing to say here.
// The scans of expressions go by index: with `all` a send costs up to 9 per cent more instructions.
ghost use Rattle.std.specs.Prelude.{◌≡◌, ℕ, ◌≤◌, ◌<◌};
ghost use Rattle.laws.specs.Below.{all_below};
ghost use Rattle.grammar.specs.Typing.{type_of, kinded, kinded_as};
ghost use Rattle.graph_tables.specs.Sizes.{message_room};
ghost use Rattle.graph_tables.specs.Words.{kinds_of, variable_count};
ghost use Rattle.graph_tables.specs.Handed.{handed_var};
ghost use Rattle.graph_tables.specs.Sound.{Sound};
ghost use Rattle.graph_edits.specs.Edits.{chosen};
ghost use Rattle.graph_checks.specs.Checks.{var_known};
ghost use Rattle.system_tables.specs.Sizes.{channel_room};
ghost use Rattle.system_tables.specs.Words.{SystemWords};
ghost use Rattle.system_builder.specs.Messages.{sent_typed, sent_fits, sent_check, received_fits, received_check};

use grammar::typing;
use graph_edits::inner::actions;
use graph_tables::answers::Answer;
use graph_tables::handed::Vars;
use graph_tables::refusals::Refusal;
use graph_tables::{inner, sizes};
use system_tables::inner::words;

fn is_typed(graph: &[u64], items: &[u64]) -> bool
    requires { Sound graph.now }
    ensures { result ≡ kinded (type_of (kinds_of graph.now) items.now) }
{
    typing::type_of(items, inner::kinds_of(graph)).has_kind()
}

// Whether each expression has a kind.
fn all_typed<'a>(
    graph: &[u64],
    w: &'a [u64],
    x: &'a [u64],
    y: &'a [u64],
    z: &'a [u64],
    count: usize,
) -> bool
    requires { Sound graph.now }
    ensures { result ≡ all_below count (sent_typed graph.now (chosen w.now x.now y.now z.now)) }
{
    for e in 0..count {
        if !is_typed(graph, actions::choose(w, x, y, z, e)) {
            return false;
        }
    }
    true
}

fn is_of_kind(graph: &[u64], items: &[u64], kind: u64) -> bool
    requires { Sound graph.now }
    ensures { result ≡ kinded_as kind (type_of (kinds_of graph.now) items.now) }
{
    typing::type_of(items, inner::kinds_of(graph)).kinded_as(kind)
}

// Whether each is of the channel's kind.
fn all_sent_fit<'a>(
    t: &[u64],
    q: usize,
    graph: &[u64],
    w: &'a [u64],
    x: &'a [u64],
    y: &'a [u64],
    z: &'a [u64],
    count: usize,
) -> bool
    requires { Sound graph.now × SystemWords t.now × (q < channel_room) × (count ≤ message_room) }
    ensures { result ≡ all_below count (sent_fits t.now q graph.now (chosen w.now x.now y.now z.now)) }
{
    for e in 0..count {
        let kind = words::channel_kind(t, q, e);
        if !is_of_kind(graph, actions::choose(w, x, y, z, e), kind) {
            return false;
        }
    }
    true
}

#[tactic(auto, unfolding(crate::specs::Messages::sent_check, crate::specs::Messages::if_read, laws::specs::Ladder::unless))]
pub fn sent_check<'a>(
    t: &[u64],
    q: usize,
    graph: &[u64],
    w: &'a [u64],
    x: &'a [u64],
    y: &'a [u64],
    z: &'a [u64],
    count: usize,
) -> Answer<()>
    requires { Sound graph.now × SystemWords t.now × (q < channel_room) }
    ensures { result ≡ sent_check t.now q graph.now (chosen w.now x.now y.now z.now) count }
{
    if sizes::MESSAGE < count {
        return Ok(());
    }
    if !all_typed(graph, w, x, y, z, count) {
        return Ok(());
    }
    if count != words::width_of(t, q) {
        return Err(Refusal::TypeMismatch);
    }
    if !all_sent_fit(t, q, graph, w, x, y, z, count) {
        return Err(Refusal::TypeMismatch);
    }
    Ok(())
}

#[tactic(auto, unfolding(graph_checks::specs::Checks::var_known))]
fn is_known(graph: &[u64], vars: Vars, e: usize) -> bool
    requires { Sound graph.now × (e < message_room) }
    ensures { result ≡ var_known graph.now vars e }
{
    let var = vars.vars[e];
    (var.0 as usize) < inner::variable_count(graph)
}

// Whether each variable is there.
fn all_known(graph: &[u64], vars: Vars) -> bool
    requires { Sound graph.now × (vars.count ≤ message_room) }
    ensures { result ≡ all_below vars.count (var_known graph.now vars) }
{
    (0..vars.count).all(|e| is_known(graph, vars, e))
}

#[tactic(auto, unfolding(crate::specs::Messages::received_fits))]
fn takes(t: &[u64], q: usize, graph: &[u64], vars: Vars, e: usize) -> bool
    requires { Sound graph.now × SystemWords t.now × (q < channel_room) × (e < message_room) × (handed_var vars e < variable_count graph.now) }
    ensures { result ≡ received_fits t.now q graph.now vars e }
{
    let var = vars.vars[e];
    inner::kind_at(graph, var.0 as usize) == words::channel_kind(t, q, e)
}

// Whether each takes the channel's kind.
fn all_take(t: &[u64], q: usize, graph: &[u64], vars: Vars) -> bool
    requires { Sound graph.now × SystemWords t.now × (q < channel_room) × (vars.count ≤ message_room) × ((e : ℕ) → e < vars.count → handed_var vars e < variable_count graph.now) }
    ensures { result ≡ all_below vars.count (received_fits t.now q graph.now vars) }
{
    (0..vars.count).all(|e| takes(t, q, graph, vars, e))
}

#[tactic(auto, using(crate::proofs::MessageLaws::vars_known), unfolding(crate::specs::Messages::received_check, crate::specs::Messages::if_read, laws::specs::Ladder::unless))]
pub fn received_check(t: &[u64], q: usize, graph: &[u64], vars: Vars) -> Answer<()>
    requires { Sound graph.now × SystemWords t.now × (q < channel_room) }
    ensures { result ≡ received_check t.now q graph.now vars }
{
    if sizes::MESSAGE < vars.count {
        return Ok(());
    }
    if !all_known(graph, vars) {
        return Ok(());
    }
    if vars.count != words::width_of(t, q) {
        return Err(Refusal::TypeMismatch);
    }
    if !all_take(t, q, graph, vars) {
        return Err(Refusal::TypeMismatch);
    }
    Ok(())
}
