// What a system may do next, one entry at a time, on a table and a state that fit.
ghost use Rattle.std.specs.Prelude.{◌≡◌, ◌<◌};
ghost use Rattle.run_steps.specs.Listing.{seek};
ghost use Rattle.queues.specs.Queues.{stored_of};
ghost use Rattle.system_tables.specs.Words.{graph_count, channel_count, capacity_of};
ghost use Rattle.system_tables.specs.Sound.{SystemSound};
ghost use Rattle.system_state.specs.Words.{queue_part};
ghost use Rattle.system_state.specs.Fits.{StateSound};
ghost use Rattle.channel_system.specs.Channels.{list_test};
ghost use Rattle.channel_system.specs.Steps.{spoken_by};
ghost use Rattle.channel_system.specs.Listing.{listed_as, entries_by, listed_on, listed_below, entry_at};
ghost use Rattle.channel_system.specs.Facts.{Fitting};

use crate::inner::{channels, spoken};
use graph_tables::answers::{Answer, Entry};
use graph_tables::ids::Action;
use graph_tables::inner;
use queues::inner::ring;
use run_steps::inner::listing::Sought;
use system_state::inner::words;
use system_tables::ids::{Channel, Communication, Message, PgId};

// What channel q says of a communication.
fn channel_lists(t: &[u64], s: &[u64], m: Message, q: usize) -> bool
    requires { SystemSound t.now × StateSound t.now s.now × (q < channel_count t.now) }
    ensures { result ≡ list_test m (stored_of (queue_part s.now q)) (capacity_of t.now q) }
{
    let stored = ring::stored(words::queue_at(s, q));
    let capacity = system_tables::inner::words::capacity_of(t, q);
    channels::list_test(m, stored, capacity)
}

// Whether the channel of an action lets it be listed.
fn listed_as(t: &[u64], s: &[u64], g: usize, a: u32) -> bool
    requires { Fitting t.now s.now g }
    ensures { result ≡ listed_as t.now s.now (spoken_by t.now g a) }
{
    match spoken::spoken_by(t, g, a) {
        Communication::Plain => true,
        Communication::On(m, q) => channel_lists(t, s, m, q.0 as usize),
    }
}

// Entry k of what graph g may do by an action, or how far past the end k is.
fn seek_action(t: &[u64], s: &[u64], g: usize, a: u32, k: usize) -> Sought
    requires { Fitting t.now s.now g }
    ensures { result ≡ seek (entries_by t.now s.now g a) k }
{
    if !listed_as(t, s, g, a) {
        return Sought::Left(k);
    }
    program_graph::inner::listing::seek_by(
        system_tables::inner::words::graph_at(t, g),
        words::run_at(s, g),
        a,
        k,
    )
}

// The same by any: the graph's actions, and last the reserved one.
pub fn seek_on(t: &[u64], s: &[u64], g: usize, k: usize) -> Sought
    requires { Fitting t.now s.now g }
    ensures { result ≡ seek (listed_on t.now s.now g) k }
{
    let mut left = k;
    for a in 0..inner::action_count(system_tables::inner::words::graph_at(t, g)) {
        let sought = seek_action(t, s, g, a as u32, left);
        let Sought::Left(rest) = sought else {
            return sought;
        };
        left = rest;
    }
    seek_action(t, s, g, Action::EPSILON.0, left)
}

// Entry k of what all graphs may do.
pub fn entry_at(t: &[u64], s: &[u64], k: usize) -> Answer<Option<(PgId, Entry)>>
    requires { SystemSound t.now × StateSound t.now s.now }
    ensures { result ≡ entry_at (listed_below t.now s.now (graph_count t.now)) k }
{
    let mut left = k;
    for g in 0..system_tables::inner::words::graph_count(t) {
        match seek_on(t, s, g, left) {
            Sought::Found(entry) => {
                return Ok(Some((PgId(g as u32), entry)));
            }
            Sought::Left(rest) => {
                left = rest;
            }
        }
    }
    Ok(None)
}
