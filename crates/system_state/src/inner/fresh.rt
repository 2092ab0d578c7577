// A fresh state of a system. What the table does not have is not written.
ghost use Rattle.std.specs.Prelude.{◌≡◌, ◌<◌};
ghost use Rattle.system_tables.specs.Sizes.{channel_room};
ghost use Rattle.system_tables.specs.Words.{graph_count, channel_count};
ghost use Rattle.system_tables.specs.Sound.{SystemSound};
ghost use Rattle.system_state.specs.Words.{StateWords};
ghost use Rattle.system_state.specs.Fresh.{fresh_run_at, fresh_queue_at, fresh_runs_below, fresh_queues_below, fresh_state};

use crate::inner::words;
use graph_tables::runs;
use program_graph::inner::fresh_words;
use queues::inner::ring;

fn fresh_run_at(t: &[u64], s: &mut [u64], g: usize)
    requires { SystemSound t.now × StateWords s.old × (g < graph_count t.now) }
    ensures { s.new ≡ fresh_run_at t.now s.old g }
{
    let a = words::run_start(g);
    let e = a + runs::WORDS;
    fresh_words::fresh_words(system_tables::inner::words::graph_at(t, g), &mut s[a..e])
}

fn fresh_runs(t: &[u64], s: &mut [u64])
    requires { SystemSound t.now × StateWords s.old }
    ensures { s.new ≡ fresh_runs_below t.now s.old (graph_count t.now) }
{
    for g in 0..system_tables::inner::words::graph_count(t) {
        fresh_run_at(t, s, g);
    }
}

fn fresh_queue_at(s: &mut [u64], q: usize)
    requires { StateWords s.old × (q < channel_room) }
    ensures { s.new ≡ fresh_queue_at s.old q }
{
    let a = words::queue_start(q);
    let e = a + queues::layout::WORDS;
    ring::empty(&mut s[a..e])
}

fn fresh_queues(t: &[u64], s: &mut [u64])
    requires { SystemSound t.now × StateWords s.old }
    ensures { s.new ≡ fresh_queues_below s.old (channel_count t.now) }
{
    for q in 0..system_tables::inner::words::channel_count(t) {
        fresh_queue_at(s, q);
    }
}

// A fresh state.
pub fn fresh_state(t: &[u64], s: &mut [u64])
    requires { SystemSound t.now × StateWords s.old }
    ensures { s.new ≡ fresh_state t.now s.old }
{
    words::set_time(s, 0);
    fresh_runs(t, s);
    fresh_queues(t, s)
}
