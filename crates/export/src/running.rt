// Running a system.
ghost use Rattle.std.specs.Prelude.{◌≡◌, true, []};
ghost use Rattle.channel_system.specs.Instances.{new_instance_of};
ghost use Rattle.channel_system.specs.Steps.{transition_of};
ghost use Rattle.channel_system.specs.Waits.{wait_of, can_wait_of, is_waiting_of};
ghost use Rattle.channel_system.specs.Listing.{possible_of, possible_on, nosync_on};
ghost use Rattle.channel_system.specs.Readers.{now_of, length_of, queued_of};
ghost use Rattle.c_words.specs.Told.{number_words, queued_words, entry_words, graph_entry_words, event_words, done_told, held_told};
ghost use Rattle.c_words.specs.Told.{stepped_told, waited_told, entry_told, graph_entry_told, now_told, length_told, queued_told};
ghost use Rattle.c_words.specs.Given.{answering, reading, Gives, Does, Tells};

use c_words::inner::given;
use channel_system::{readers, run, transitions};
use system_tables::ids::{Action, Channel, PgId};

pub fn njn_state_new(t: &[u64], s: &mut [u64]) -> u32
    ensures { Does result s.new (answering 0 true s.old [] (done_told (new_instance_of t.now s.old).answer) (new_instance_of t.now s.old).state) }
{
    given::done(run::new_instance(t, s))
}

pub fn njn_state_transition(
    t: &[u64],
    s: &mut [u64],
    pg: u32,
    owner: u32,
    action: u32,
    posts: &[u64],
    word: u64,
    out: &mut [u64],
) -> u32
    ensures { Gives result s.new out.new (answering event_words true s.old out.old (stepped_told (transition_of t.now s.old pg owner action posts.now word).told) (transition_of t.now s.old pg owner action posts.now word).state) }
{
    if out.len() < given::EVENT {
        return given::SHORT;
    }
    let by = Action(PgId(owner), graph_tables::ids::Action(action));
    given::told(run::transition(t, s, PgId(pg), by, posts, word), out)
}

pub fn njn_state_wait(t: &[u64], s: &mut [u64], delta: u32, out: &mut [u64]) -> u32
    ensures { Gives result s.new out.new (answering number_words true s.old out.old (waited_told (wait_of t.now s.old delta).answer) (wait_of t.now s.old delta).state) }
{
    if out.len() < given::NUMBER {
        return given::SHORT;
    }
    given::waited(run::wait(t, s, delta), out)
}

pub fn njn_state_can_wait(t: &[u64], s: &[u64], delta: u32, out: &mut [u64]) -> u32
    ensures { Tells result out.new (reading number_words out.old (held_told (can_wait_of t.now s.now delta))) }
{
    if out.len() < given::NUMBER {
        return given::SHORT;
    }
    given::told(run::can_wait(t, s, delta), out)
}

pub fn njn_state_is_waiting(t: &[u64], s: &[u64], out: &mut [u64]) -> u32
    ensures { Tells result out.new (reading number_words out.old (held_told (is_waiting_of t.now s.now))) }
{
    if out.len() < given::NUMBER {
        return given::SHORT;
    }
    given::told(run::is_waiting(t, s), out)
}

pub fn njn_state_possible_transitions(t: &[u64], s: &[u64], k: usize, out: &mut [u64]) -> u32
    ensures { Tells result out.new (reading graph_entry_words out.old (graph_entry_told (possible_of t.now s.now k))) }
{
    if out.len() < given::GRAPH_ENTRY {
        return given::SHORT;
    }
    given::told(transitions::possible_transitions(t, s, k), out)
}

pub fn njn_state_possible_transitions_pg(
    t: &[u64],
    s: &[u64],
    pg: u32,
    k: usize,
    out: &mut [u64],
) -> u32
    ensures { Tells result out.new (reading entry_words out.old (entry_told (possible_on t.now s.now pg k))) }
{
    if out.len() < given::ENTRY {
        return given::SHORT;
    }
    given::told(transitions::possible_transitions_pg(t, s, PgId(pg), k), out)
}

pub fn njn_state_nosync_possible_transitions_pg(
    t: &[u64],
    s: &[u64],
    pg: u32,
    k: usize,
    out: &mut [u64],
) -> u32
    ensures { Tells result out.new (reading entry_words out.old (entry_told (nosync_on t.now s.now pg k))) }
{
    if out.len() < given::ENTRY {
        return given::SHORT;
    }
    given::told(
        transitions::nosync_possible_transitions_pg(t, s, PgId(pg), k),
        out,
    )
}

pub fn njn_state_time(t: &[u64], s: &[u64], out: &mut [u64]) -> u32
    ensures { Tells result out.new (reading number_words out.old (now_told (now_of t.now s.now))) }
{
    if out.len() < given::NUMBER {
        return given::SHORT;
    }
    given::told(readers::time(t, s), out)
}

pub fn njn_state_queue_length(t: &[u64], s: &[u64], channel: u32, out: &mut [u64]) -> u32
    ensures { Tells result out.new (reading number_words out.old (length_told (length_of t.now s.now channel))) }
{
    if out.len() < given::NUMBER {
        return given::SHORT;
    }
    given::told(readers::queue_length(t, s, Channel(channel)), out)
}

pub fn njn_state_queue_value(t: &[u64], s: &[u64], channel: u32, k: usize, out: &mut [u64]) -> u32
    ensures { Tells result out.new (reading queued_words out.old (queued_told (queued_of t.now s.now channel k))) }
{
    if out.len() < given::QUEUED {
        return given::SHORT;
    }
    given::told(readers::queue_value(t, s, Channel(channel), k), out)
}
