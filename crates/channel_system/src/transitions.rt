// Listing what a system may do next, one entry at a time.
ghost use Rattle.std.specs.Prelude.{◌≡◌};
ghost use Rattle.channel_system.specs.Listing.{possible_of, possible_on, nosync_on};

use crate::inner::listing;
use crate::run;
use graph_tables::answers::{Answer, Entry};
use graph_tables::inner;
use graph_tables::refusals::Refusal;
use program_graph::inner::listing::entry_or_end;
use system_tables::ids::PgId;
use system_tables::inner::words;

// Entry k of what all graphs may do next.
pub fn possible_transitions(t: &[u64], s: &[u64], k: usize) -> Answer<Option<(PgId, Entry)>>
    ensures { result ≡ possible_of t.now s.now k }
{
    run::fitting(t, s)?;
    listing::entry_at(t, s, k)
}

// Entry k of what one graph may do next.
pub fn possible_transitions_pg(t: &[u64], s: &[u64], pg_id: PgId, k: usize) -> Answer<Option<Entry>>
    ensures { result ≡ possible_on t.now s.now pg_id.0 k }
{
    run::fitting(t, s)?;
    let g = pg_id.0 as usize;
    if words::graph_count(t) <= g {
        return Err(Refusal::MissingPg);
    }
    entry_or_end(listing::seek_on(t, s, g, k))
}

// The same for a graph of one process.
pub fn nosync_possible_transitions_pg(
    t: &[u64],
    s: &[u64],
    pg_id: PgId,
    k: usize,
) -> Answer<Option<Entry>>
    ensures { result ≡ nosync_on t.now s.now pg_id.0 k }
{
    run::fitting(t, s)?;
    let g = pg_id.0 as usize;
    if words::graph_count(t) <= g {
        return Err(Refusal::MissingPg);
    }
    if inner::process_count(words::graph_at(t, g)) != 1 {
        return Err(Refusal::Sync);
    }
    entry_or_end(listing::seek_on(t, s, g, k))
}
