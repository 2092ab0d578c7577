// Calls on a run by value, on a table that it fits: what the run uses is put into words, which the call works on, and read back over the run.
ghost use Rattle.std.specs.Prelude.{◌≡◌, true};
ghost use Rattle.graph_tables.specs.Sound.{Sound};
ghost use Rattle.run_steps.specs.Listing.{seek};
ghost use Rattle.program_graph.specs.Running.{run_formed, step_of, waited_of, wait_open, waits_on};
ghost use Rattle.program_graph.specs.Messaging.{sent_of, received_of};
ghost use Rattle.program_graph.specs.Outcomes.{outcome, sent};
ghost use Rattle.program_graph.specs.Transitions.{listed, entry_or_end};

use crate::inner::{listing, messages, steps, waits, words};
use crate::record::ProgramGraphRun;
use graph_tables::answers::{Answer, Entry};
use graph_tables::handed::Message;
use graph_tables::runs;

pub fn step(
    run: &mut ProgramGraphRun,
    t: &[u64],
    action: u32,
    posts: &[u32],
    word: u64,
) -> Answer<()>
    requires { Sound t.now × (run_formed t.now run.old ≡ true) }
    ensures { outcome result run.new ≡ step_of t.now run.old action posts.now word }
{
    let mut r = [0; runs::WORDS];
    words::store(&mut r, *run);
    let answer = steps::step(t, &mut r, action, posts, word);
    *run = words::load(&r, *run);
    answer
}

pub fn wait(run: &mut ProgramGraphRun, t: &[u64], delta: u32) -> Answer<()>
    requires { Sound t.now × (run_formed t.now run.old ≡ true) }
    ensures { outcome result run.new ≡ waited_of t.now run.old delta }
{
    let mut r = [0; runs::WORDS];
    words::store(&mut r, *run);
    let answer = waits::wait_on(t, &mut r, delta);
    *run = words::load(&r, *run);
    answer
}

pub fn send(
    run: &mut ProgramGraphRun,
    t: &[u64],
    action: u32,
    posts: &[u32],
    word: u64,
) -> Answer<Message>
    requires { Sound t.now × (run_formed t.now run.old ≡ true) }
    ensures { sent result run.new ≡ sent_of t.now run.old action posts.now word }
{
    let mut r = [0; runs::WORDS];
    words::store(&mut r, *run);
    let said = messages::send_on(t, &mut r, action, posts, word);
    *run = words::load(&r, *run);
    said
}

pub fn receive(
    run: &mut ProgramGraphRun,
    t: &[u64],
    action: u32,
    posts: &[u32],
    message: Message,
) -> Answer<()>
    requires { Sound t.now × (run_formed t.now run.old ≡ true) }
    ensures { outcome result run.new ≡ received_of t.now run.old action posts.now message }
{
    let mut r = [0; runs::WORDS];
    words::store(&mut r, *run);
    let answer = messages::receive_on(t, &mut r, action, posts, message);
    *run = words::load(&r, *run);
    answer
}

pub fn can_wait(run: ProgramGraphRun, t: &[u64], delta: u32) -> bool
    requires { Sound t.now × (run_formed t.now run ≡ true) }
    ensures { result ≡ wait_open t.now run delta }
{
    let mut r = [0; runs::WORDS];
    words::store(&mut r, run);
    waits::can_wait_on(t, &r, delta)
}

pub fn is_waiting(run: ProgramGraphRun, t: &[u64]) -> bool
    requires { Sound t.now × (run_formed t.now run ≡ true) }
    ensures { result ≡ waits_on t.now run }
{
    let mut r = [0; runs::WORDS];
    words::store(&mut r, run);
    waits::is_waiting_on(t, &r)
}

pub fn entry(run: ProgramGraphRun, t: &[u64], k: usize) -> Answer<Option<Entry>>
    requires { Sound t.now × (run_formed t.now run ≡ true) }
    ensures { result ≡ entry_or_end (seek (listed t.now run) k) }
{
    let mut r = [0; runs::WORDS];
    words::store(&mut r, run);
    listing::listed_on(t, &r, k)
}
