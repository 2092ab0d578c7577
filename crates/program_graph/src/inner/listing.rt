// Entries of the list of a run in words, on a table that it fits.
ghost use Rattle.std.specs.Prelude.{◌≡◌};
ghost use Rattle.graph_tables.specs.Sound.{Sound};
ghost use Rattle.run_steps.specs.Listing.{seek};
ghost use Rattle.program_graph.specs.Transitions.{listed, listed_by, entry_or_end};
ghost use Rattle.program_graph.specs.Inner.{run_at, RunOf};

use graph_tables::answers::{Answer, Entry};
use graph_tables::runs;
use run_steps::inner::listing;
use run_steps::inner::listing::Sought;

pub fn entry_or_end(sought: Sought) -> Answer<Option<Entry>>
    ensures { result ≡ entry_or_end sought }
{
    match sought {
        Sought::Found(entry) => Ok(Some(entry)),
        Sought::Left(_) => Ok(None),
    }
}

// Entry k of the whole list.
pub fn listed_on(t: &[u64], r: &[u64], k: usize) -> Answer<Option<Entry>>
    requires { Sound t.now × RunOf t.now r.now }
    ensures { result ≡ entry_or_end (seek (listed t.now (run_at r.now)) k) }
{
    let n = r[runs::PROCESSES] as usize;
    entry_or_end(listing::seek_entry(
        t,
        &r[runs::VARS..runs::CLOCKS],
        &r[runs::CLOCKS..runs::WORDS],
        &r[runs::PLACES..runs::PLACES + n],
        k,
    ))
}

// Entry k of those by one action, or how far past their end k is.
pub fn seek_by(t: &[u64], r: &[u64], action: u32, k: usize) -> Sought
    requires { Sound t.now × RunOf t.now r.now }
    ensures { result ≡ seek (listed_by t.now (run_at r.now) action) k }
{
    let n = r[runs::PROCESSES] as usize;
    listing::seek_action(
        t,
        &r[runs::VARS..runs::CLOCKS],
        &r[runs::CLOCKS..runs::WORDS],
        &r[runs::PLACES..runs::PLACES + n],
        action,
        k,
    )
}
