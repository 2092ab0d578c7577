// A channel system that is run: its table is lent, and its state beside it.
ghost use Rattle.std.specs.Prelude.{◌≡◌, true, false, MatchResult};
ghost use Rattle.graph_tables.specs.declared.refusals.Refusal.TheVariants.{BadState};
ghost use Rattle.channel_system.specs.Steps.{system_fits, transition_of};
ghost use Rattle.channel_system.specs.Facts.{DidMove};
ghost use Rattle.channel_system.specs.Instances.{new_instance_of};
ghost use Rattle.channel_system.specs.Waits.{wait_of, can_wait_of, is_waiting_of};

use crate::answers::{Event, WaitError};
use crate::inner::{steps, waits};
use graph_tables::answers::Answer;
use graph_tables::refusals::Refusal;
use system_state::inner::{fits, fresh};
use system_state::layout;
use system_tables::formed;
use system_tables::ids::{Action, PgId};

// The test behind 32.
pub fn system_fits(t: &[u64], s: &[u64]) -> bool
    ensures { result ≡ system_fits t.now s.now }
{
    if !formed::system_formed(t, false) {
        return false;
    }
    fits::state_fits(t, s)
}

// The same test, with its refusal.
pub(crate) fn fitting(t: &[u64], s: &[u64]) -> Answer<()>
    ensures { MatchResult result (λ _. system_fits t.now s.now ≡ true)
        (λ r. (r ≡ BadState) × (system_fits t.now s.now ≡ false)) }
{
    if !system_fits(t, s) {
        return Err(Refusal::BadState);
    }
    Ok(())
}

// A fresh state of a system, over any words.
pub fn new_instance(t: &[u64], s: &mut [u64]) -> Answer<()>
    ensures { (result ≡ (new_instance_of t.now s.old).answer)
        × (s.new ≡ (new_instance_of t.now s.old).state) }
{
    if !formed::system_formed(t, false) {
        return Err(Refusal::BadState);
    }
    if s.len() != layout::WORDS {
        return Err(Refusal::BadState);
    }
    fresh::fresh_state(t, s);
    Ok(())
}

// A step of graph pg by an action, each process to its post. Posts are words, graph * 2^32 + location.
pub fn transition(
    t: &[u64],
    s: &mut [u64],
    pg: PgId,
    action: Action,
    posts: &[u64],
    word: u64,
) -> Answer<Event>
    ensures { DidMove result s.new (transition_of t.now s.old pg.0 action.0.0 action.1.0
        posts.now word) }
{
    fitting(t, s)?;
    steps::step(t, s, pg, action, posts, word)
}

// Time passes for all graphs, if nothing overflows and every invariant holds at the end.
pub fn wait(t: &[u64], s: &mut [u64], delta: u32) -> Result<(), WaitError>
    ensures { (result ≡ (wait_of t.now s.old delta).answer)
        × (s.new ≡ (wait_of t.now s.old delta).state) }
{
    fitting(t, s)?;
    waits::wait(t, s, delta)
}

pub fn can_wait(t: &[u64], s: &[u64], delta: u32) -> Answer<bool>
    ensures { result ≡ can_wait_of t.now s.now delta }
{
    fitting(t, s)?;
    Ok(waits::can_wait(t, s, delta))
}

// Whether time may pass, and some graph waits for it.
pub fn is_waiting(t: &[u64], s: &[u64]) -> Answer<bool>
    ensures { result ≡ is_waiting_of t.now s.now }
{
    fitting(t, s)?;
    Ok(waits::is_waiting(t, s))
}
