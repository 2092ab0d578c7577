// A step of a system, on a table and a state that fit: the graph's own call on its run in place, and then the queue. A refusal leaves
// every word.
ghost use Rattle.std.specs.Prelude.{◌≡◌, ◌<◌};
ghost use Rattle.system_tables.specs.declared.ids.Communication.TheVariants.{On};
ghost use Rattle.system_tables.specs.declared.ids.Message.TheVariants.{Send, Receive};
ghost use Rattle.queues.specs.Queues.{stored_of};
ghost use Rattle.system_state.specs.Words.{queue_part};
ghost use Rattle.system_state.specs.Fits.{StateSound};
ghost use Rattle.system_tables.specs.Sound.{SystemSound};
ghost use Rattle.channel_system.specs.Steps.{no_event, event_of, spoken_by};
ghost use Rattle.channel_system.specs.Steps.{plain_step, send_step, receive_step, probe_step, message_step, step_as, moved_of};
ghost use Rattle.channel_system.specs.Facts.{Fitting, DidMove, Speaks};

use crate::answers::Event;
use crate::inner::{posts, runs, spoken, transfers};
use graph_tables::answers::Answer;
use graph_tables::handed;
use graph_tables::refusals::Refusal;
use run_steps::inner::messages;
use system_tables::ids::{Action, Channel, Communication, Message, PgId};
use system_tables::inner::words;

// A plain step has no event.
fn silent(g: u32) -> Event
    ensures { result ≡ no_event g }
{
    Event {
        pg_id: PgId(g),
        on: Communication::Plain,
        values: messages::no_message(),
    }
}

// What an accepted communication did.
fn event(g: u32, m: Message, q: u32, values: handed::Message) -> Event
    ensures { result ≡ event_of g m q values }
{
    Event {
        pg_id: PgId(g),
        on: Communication::On(m, Channel(q)),
        values,
    }
}

// By a plain action, or by one that the graph does not have.
fn plain_step(t: &[u64], s: &mut [u64], g: u32, a: u32, posts: &[u32], word: u64) -> Answer<Event>
    requires { Fitting t.now s.old g }
    ensures { DidMove result s.new (plain_step t.now s.old g a posts.now word) }
{
    runs::step(t, s, g as usize, a, posts, word)?;
    Ok(silent(g))
}

fn send_step(
    t: &[u64],
    s: &mut [u64],
    g: u32,
    a: u32,
    posts: &[u32],
    word: u64,
    q: u32,
) -> Answer<Event>
    requires { Fitting t.now s.old g × Speaks t.now g a Send q }
    ensures { DidMove result s.new (send_step t.now s.old g a posts.now word q) }
{
    let message = runs::send(t, s, g as usize, a, posts, word)?;
    transfers::send_into(t, s, q as usize, message);
    Ok(event(g, Message::Send, q, message))
}

fn receive_step(t: &[u64], s: &mut [u64], g: u32, a: u32, posts: &[u32], q: u32) -> Answer<Event>
    requires { Fitting t.now s.old g × Speaks t.now g a Receive q × (0 < stored_of (queue_part s.old q)) }
    ensures { DidMove result s.new (receive_step t.now s.old g a posts.now q) }
{
    let message = transfers::oldest_in(t, s, q as usize);
    runs::receive(t, s, g as usize, a, posts, message)?;
    transfers::take_from(t, s, q as usize);
    Ok(event(g, Message::Receive, q, message))
}

fn probe_step(
    t: &[u64],
    s: &mut [u64],
    g: u32,
    a: u32,
    posts: &[u32],
    word: u64,
    q: u32,
    m: Message,
) -> Answer<Event>
    requires { Fitting t.now s.old g }
    ensures { DidMove result s.new (probe_step t.now s.old g a posts.now word q m) }
{
    runs::send(t, s, g as usize, a, posts, word)?;
    Ok(event(g, m, q, messages::no_message()))
}

// A communication whose channel is open.
fn message_step(
    t: &[u64],
    s: &mut [u64],
    g: u32,
    a: u32,
    posts: &[u32],
    word: u64,
    q: u32,
    m: Message,
) -> Answer<Event>
    requires { Fitting t.now s.old g × Speaks t.now g a m q × (m ≡ Receive → 0 < stored_of (queue_part s.old q)) }
    ensures { DidMove result s.new (message_step t.now s.old g a posts.now word q m) }
{
    match m {
        Message::Send => send_step(t, s, g, a, posts, word, q),
        Message::Receive => receive_step(t, s, g, a, posts, q),
        Message::ProbeEmptyQueue => probe_step(t, s, g, a, posts, word, q, m),
        Message::ProbeFullQueue => probe_step(t, s, g, a, posts, word, q, m),
    }
}

// The channel is asked first.
fn communicate(
    t: &[u64],
    s: &mut [u64],
    g: u32,
    a: u32,
    posts: &[u32],
    word: u64,
    m: Message,
    q: u32,
) -> Answer<Event>
    requires { Fitting t.now s.old g × Speaks t.now g a m q }
    ensures { DidMove result s.new (step_as t.now s.old g a posts.now word
        (On m (record { 0 = q }))) }
{
    transfers::channel_answer(t, s, q as usize, m)?;
    message_step(t, s, g, a, posts, word, q, m)
}

// Whatever an action is to the system.
fn step_as(t: &[u64], s: &mut [u64], g: u32, a: u32, posts: &[u32], word: u64) -> Answer<Event>
    requires { Fitting t.now s.old g }
    ensures { DidMove result s.new (step_as t.now s.old g a posts.now word
        (spoken_by t.now g a)) }
{
    match spoken::spoken_by(t, g as usize, a) {
        Communication::Plain => plain_step(t, s, g, a, posts, word),
        Communication::On(m, q) => communicate(t, s, g, a, posts, word, m, q.0),
    }
}

// A step on a table and a state that are known to fit.
pub fn step(
    t: &[u64],
    s: &mut [u64],
    pg: PgId,
    action: Action,
    posts: &[u64],
    word: u64,
) -> Answer<Event>
    requires { SystemSound t.now × StateSound t.now s.old }
    ensures { DidMove result s.new (moved_of t.now s.old pg.0 action.0.0 action.1.0
        posts.now word) }
{
    let g = pg.0;
    if words::graph_count(t) <= g as usize {
        return Err(Refusal::MissingPg);
    }
    let owner = action.0;
    if owner.0 != g {
        return Err(Refusal::ActionNotInPg);
    }
    if !posts::own(posts, g) {
        return Err(Refusal::LocationNotInPg);
    }
    let n = posts::few(posts.len());
    let mut own = [0; posts::FEW];
    posts::locations(posts, n, &mut own);
    let local = action.1;
    step_as(t, s, g, local.0, &own[0..n], word)
}
