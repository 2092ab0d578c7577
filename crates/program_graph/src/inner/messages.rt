// The graph's own send and receive, of a run in words on a table that it fits. Neither resets a clock. A refusal leaves every word.
ghost use Rattle.std.specs.Prelude.{◌≡◌, ◌<◌, length, take};
ghost use Rattle.graph_tables.specs.Sizes.{send_kind, receive_kind};
ghost use Rattle.graph_tables.specs.RunWords.{RunWords, run_places_start, run_processes, places_in, vars_in, clocks_in};
ghost use Rattle.graph_tables.specs.Words.{variable_count, action_count, action_kind};
ghost use Rattle.graph_tables.specs.Sound.{Sound};
ghost use Rattle.grammar.specs.Slots.{slots_of};
ghost use Rattle.run_steps.specs.Messages.{taken_of};
ghost use Rattle.run_steps.specs.Inner.{VarsLeft};
ghost use Rattle.program_graph.specs.Messaging.{said_of, sent_of, heard_of, received_of};
ghost use Rattle.program_graph.specs.Inner.{run_at, RunOf, Parts, DidSend, DidCall};

use crate::inner::steps;
use graph_tables::answers::Answer;
use graph_tables::handed::Message;
use graph_tables::ids::Action;
use graph_tables::refusals::Refusal;
use graph_tables::{inner, layout, runs};
use run_steps::inner::{effects, messages};

// A send that is open: its values.
fn say(t: &[u64], r: &mut [u64], a: usize, posts: &[u32], word: u64) -> Answer<Message>
    requires { Sound t.now × RunOf t.now r.old × (length posts.now ≡ run_processes r.old) × (a < action_count t.now)
        × (action_kind t.now a ≡ send_kind) }
    ensures { DidSend t.now r.old result r.new (said_of t.now (run_at r.old) a
        posts.now word) }
{
    let spoken = messages::spoken(t, a, &r[runs::VARS..runs::CLOCKS], word);
    if !spoken.fits {
        return Err(Refusal::Overflow);
    }
    let values = spoken.values;
    let count = inner::effect_count(t, a);
    let message = messages::message(values, count);
    steps::move_to(r, posts);
    Ok(message)
}

// A send on a table and a run that are known to fit.
pub fn send_on(t: &[u64], r: &mut [u64], action: u32, posts: &[u32], word: u64) -> Answer<Message>
    requires { Sound t.now × RunOf t.now r.old }
    ensures { DidSend t.now r.old result r.new (sent_of t.now (run_at r.old) action
        posts.now word) }
{
    if action == Action::EPSILON.0 {
        return Err(Refusal::NotSend);
    }
    if posts.len() as u64 != r[runs::PROCESSES] {
        return Err(Refusal::MismatchingPostStates);
    }
    if !steps::ready_still(t, r, action, posts) {
        return Err(Refusal::UnsatisfiedGuard);
    }
    let a = action as usize;
    if !effects::is_kind(t, a, layout::SEND) {
        return Err(Refusal::NotSend);
    }
    say(t, r, a, posts, word)
}

// The variables of a receive take the values.
fn take_in(t: &[u64], r: &mut [u64], a: usize, message: Message)
    requires { Sound t.now × RunWords r.old × (a < action_count t.now) × (action_kind t.now a ≡ receive_kind) }
    ensures { Parts r.new (take run_places_start r.old) (places_in r.old) (vars_in r.new)
        (clocks_in r.old) × VarsLeft (variable_count t.now) (vars_in r.old) (vars_in r.new)
        (taken_of t.now a message (slots_of (vars_in r.old))) }
{
    messages::take_in(t, a, message, &mut r[runs::VARS..runs::CLOCKS])
}

// A receive that is open.
fn hear(t: &[u64], r: &mut [u64], a: usize, posts: &[u32], message: Message) -> Answer<()>
    requires { Sound t.now × RunOf t.now r.old × (length posts.now ≡ run_processes r.old) × (a < action_count t.now)
        × (action_kind t.now a ≡ receive_kind) }
    ensures { DidCall t.now r.old result r.new (heard_of t.now (run_at r.old) a
        posts.now message) }
{
    if !messages::message_fits(t, a, message) {
        return Err(Refusal::TypeMismatch);
    }
    take_in(t, r, a, message);
    steps::move_to(r, posts);
    Ok(())
}

// A receive on a table and a run that are known to fit.
pub fn receive_on(
    t: &[u64],
    r: &mut [u64],
    action: u32,
    posts: &[u32],
    message: Message,
) -> Answer<()>
    requires { Sound t.now × RunOf t.now r.old }
    ensures { DidCall t.now r.old result r.new (received_of t.now (run_at r.old) action
        posts.now message) }
{
    if action == Action::EPSILON.0 {
        return Err(Refusal::NotReceive);
    }
    if posts.len() as u64 != r[runs::PROCESSES] {
        return Err(Refusal::MismatchingPostStates);
    }
    if !steps::ready_still(t, r, action, posts) {
        return Err(Refusal::UnsatisfiedGuard);
    }
    let a = action as usize;
    if !effects::is_kind(t, a, layout::RECEIVE) {
        return Err(Refusal::NotReceive);
    }
    hear(t, r, a, posts, message)
}
