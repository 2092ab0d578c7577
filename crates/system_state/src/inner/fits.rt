// Whether a state is one of a table's. Its cost goes by what is used.
ghost use Rattle.std.specs.Prelude.{◌≡◌, ◌<◌};
ghost use Rattle.laws.specs.Below.{all_below};
ghost use Rattle.system_tables.specs.Words.{graph_count, channel_count};
ghost use Rattle.system_tables.specs.Sound.{SystemSound};
ghost use Rattle.system_state.specs.Words.{StateWords};
ghost use Rattle.system_state.specs.Fits.{ceiling_at, run_fits, queue_fits_at, state_fits};

use crate::inner::words;
use crate::layout;
use time;

// The run of graph g is one of the graph's.
fn run_fits(t: &[u64], s: &[u64], g: usize) -> bool
    requires { SystemSound t.now × StateWords s.now × (g < graph_count t.now) }
    ensures { result ≡ run_fits t.now s.now g }
{
    program_graph::inner::fits::run_words_fit(
        system_tables::inner::words::graph_at(t, g),
        words::run_at(s, g),
    )
}

fn runs_fit(t: &[u64], s: &[u64]) -> bool
    requires { SystemSound t.now × StateWords s.now }
    ensures { result ≡ all_below (graph_count t.now) (run_fits t.now s.now) }
{
    (0..system_tables::inner::words::graph_count(t)).all(|g| run_fits(t, s, g))
}

// The most slots that channel q ever takes.
pub fn ceiling_at(t: &[u64], q: usize) -> usize
    requires { SystemSound t.now × (q < channel_count t.now) }
    ensures { result ≡ ceiling_at t.now q }
{
    let width = system_tables::inner::words::width_of(t, q);
    let capacity = system_tables::inner::words::capacity_of(t, q);
    system_tables::inner::ceiling::ceiling_of(width, capacity) as usize
}

// The queue of channel q is one of the channel's.
fn queue_fits(t: &[u64], s: &[u64], q: usize) -> bool
    requires { SystemSound t.now × StateWords s.now × (q < channel_count t.now) }
    ensures { result ≡ queue_fits_at t.now s.now q }
{
    let ceiling = ceiling_at(t, q);
    queues::inner::fits::queue_fits(
        words::queue_at(s, q),
        system_tables::inner::words::kinds_at(t, q),
        ceiling,
    )
}

fn queues_fit(t: &[u64], s: &[u64]) -> bool
    requires { SystemSound t.now × StateWords s.now }
    ensures { result ≡ all_below (channel_count t.now) (queue_fits_at t.now s.now) }
{
    (0..system_tables::inner::words::channel_count(t)).all(|q| queue_fits(t, s, q))
}

// The state is one of the table's.
pub fn state_fits(t: &[u64], s: &[u64]) -> bool
    requires { SystemSound t.now }
    ensures { result ≡ state_fits t.now s.now }
{
    if s.len() != layout::WORDS {
        return false;
    }
    if (time::LAST as u64) < words::time_of(s) {
        return false;
    }
    if !runs_fit(t, s) {
        return false;
    }
    queues_fit(t, s)
}
