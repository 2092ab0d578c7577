// The words of a state, each read by its name.
ghost use Rattle.std.specs.Prelude.{◌≡◌, ◌<◌};
ghost use Rattle.system_tables.specs.Sizes.{graph_room, channel_room};
ghost use Rattle.system_state.specs.Layout.{run_start, queue_start};
ghost use Rattle.system_state.specs.Words.{StateWords, time_in, with_time, run_part, queue_part};

use crate::layout;
use graph_tables::runs;

pub fn time_of(s: &[u64]) -> u64
    requires { StateWords s.now }
    ensures { result ≡ time_in s.now }
{
    s[layout::TIME]
}

pub fn set_time(s: &mut [u64], n: u32)
    requires { StateWords s.old }
    ensures { s.new ≡ with_time s.old n }
{
    s[layout::TIME] = n as u64;
}

// Where the run of a graph starts, and the queue of a channel.
pub fn run_start(g: usize) -> usize
    requires { g < graph_room }
    ensures { result ≡ run_start g }
{
    layout::RUNS + runs::WORDS * g
}

pub fn queue_start(q: usize) -> usize
    requires { q < channel_room }
    ensures { result ≡ queue_start q }
{
    layout::QUEUES + queues::layout::WORDS * q
}

// The run of a graph alone, for the graph's own calls.
pub fn run_at(s: &[u64], g: usize) -> &[u64]
    requires { StateWords s.now × (g < graph_room) }
    ensures { result.now ≡ run_part s.now g }
{
    let a = run_start(g);
    let e = a + runs::WORDS;
    &s[a..e]
}

// The queue of a channel alone.
pub fn queue_at(s: &[u64], q: usize) -> &[u64]
    requires { StateWords s.now × (q < channel_room) }
    ensures { result.now ≡ queue_part s.now q }
{
    let a = queue_start(q);
    let e = a + queues::layout::WORDS;
    &s[a..e]
}
