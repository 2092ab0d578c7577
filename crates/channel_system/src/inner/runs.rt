// The graph's own calls on the run of graph g, in place. A refusal leaves every word; no other run, no queue and not the time is written.
ghost use Rattle.std.specs.Prelude.{◌≡◌};
ghost use Rattle.program_graph.specs.Running.{step_of};
ghost use Rattle.program_graph.specs.Messaging.{sent_of, received_of};
ghost use Rattle.program_graph.specs.Outcomes.{accepts, values_said};
ghost use Rattle.system_tables.specs.Words.{graph_part};
ghost use Rattle.channel_system.specs.Steps.{run_of};
ghost use Rattle.channel_system.specs.Facts.{Fitting, Ran};

use graph_tables::answers::Answer;
use graph_tables::handed::Message;
use graph_tables::runs;
use program_graph::inner::{messages, steps};
use system_state::inner::words;

// A plain step.
pub fn step(t: &[u64], s: &mut [u64], g: usize, a: u32, posts: &[u32], word: u64) -> Answer<()>
    requires { Fitting t.now s.old g }
    ensures { (result ≡ (step_of (graph_part t.now g) (run_of s.old g) a posts.now word).answer)
        × Ran t.now s.old g result (step_of (graph_part t.now g) (run_of s.old g) a
        posts.now word).run
        s.new }
{
    let at = words::run_start(g);
    let end = at + runs::WORDS;
    steps::step(
        system_tables::inner::words::graph_at(t, g),
        &mut s[at..end],
        a,
        posts,
        word,
    )
}

// A send.
pub fn send(t: &[u64], s: &mut [u64], g: usize, a: u32, posts: &[u32], word: u64) -> Answer<Message>
    requires { Fitting t.now s.old g }
    ensures { (accepts result ≡ (sent_of (graph_part t.now g) (run_of s.old g) a posts.now word).answer)
        × (values_said result ≡ (sent_of (graph_part t.now g) (run_of s.old g) a posts.now word).message)
        × Ran t.now s.old g (accepts result)
        (sent_of (graph_part t.now g) (run_of s.old g) a posts.now word).run s.new }
{
    let at = words::run_start(g);
    let end = at + runs::WORDS;
    messages::send_on(
        system_tables::inner::words::graph_at(t, g),
        &mut s[at..end],
        a,
        posts,
        word,
    )
}

// A receive.
pub fn receive(
    t: &[u64],
    s: &mut [u64],
    g: usize,
    a: u32,
    posts: &[u32],
    message: Message,
) -> Answer<()>
    requires { Fitting t.now s.old g }
    ensures { (result ≡ (received_of (graph_part t.now g) (run_of s.old g) a posts.now message).answer)
        × Ran t.now s.old g result
        (received_of (graph_part t.now g) (run_of s.old g) a posts.now message).run s.new }
{
    let at = words::run_start(g);
    let end = at + runs::WORDS;
    messages::receive_on(
        system_tables::inner::words::graph_at(t, g),
        &mut s[at..end],
        a,
        posts,
        message,
    )
}
