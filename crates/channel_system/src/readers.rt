// What can be read of a state.
ghost use Rattle.std.specs.Prelude.{◌≡◌};
ghost use Rattle.queues.specs.Queues.{Counted};
ghost use Rattle.channel_system.specs.Steps.{carrying};
ghost use Rattle.channel_system.specs.Readers.{now_of, length_of, queued_at, queued_of, graph_run_of};

use crate::run;
use grammar::values::Val;
use graph_tables::answers::Answer;
use graph_tables::refusals::Refusal;
use program_graph::inner::used;
use program_graph::record::ProgramGraphRun;
use queues::inner::ring;
use system_state::inner::words;
use system_tables::ids::{Channel, PgId};

// The time.
pub fn time(t: &[u64], s: &[u64]) -> Answer<u32>
    ensures { result ≡ now_of t.now s.now }
{
    run::fitting(t, s)?;
    Ok(words::time_of(s) as u32)
}

// How many values the queue of a channel has.
pub fn queue_length(t: &[u64], s: &[u64], channel: Channel) -> Answer<usize>
    ensures { result ≡ length_of t.now s.now channel.0 }
{
    run::fitting(t, s)?;
    let q = channel.0 as usize;
    if system_tables::inner::words::channel_count(t) <= q {
        return Err(Refusal::MissingChannel);
    }
    Ok(ring::stored(words::queue_at(s, q)))
}

// Entry k of a queue, or that it is past the end.
fn queued_at(queue: &[u64], k: usize) -> Answer<Option<Val>>
    requires { Counted queue.now }
    ensures { result ≡ queued_at queue.now k }
{
    if ring::stored(queue) <= k {
        return Ok(None);
    }
    Ok(Some(ring::value_at(queue, k)))
}

// Value k of the queue of a channel, from the oldest on.
pub fn queue_value(t: &[u64], s: &[u64], channel: Channel, k: usize) -> Answer<Option<Val>>
    ensures { result ≡ queued_of t.now s.now channel.0 k }
{
    run::fitting(t, s)?;
    let q = channel.0 as usize;
    if system_tables::inner::words::channel_count(t) <= q {
        return Err(Refusal::MissingChannel);
    }
    queued_at(words::queue_at(s, q), k)
}

// The run of a graph.
pub fn program_graph(t: &[u64], s: &[u64], pg_id: PgId) -> Answer<ProgramGraphRun>
    ensures { result ≡ carrying (graph_run_of t.now s.now pg_id.0).answer (graph_run_of t.now s.now pg_id.0).run }
{
    run::fitting(t, s)?;
    let g = pg_id.0 as usize;
    if system_tables::inner::words::graph_count(t) <= g {
        return Err(Refusal::MissingPg);
    }
    Ok(used::used_run(words::run_at(s, g)))
}
