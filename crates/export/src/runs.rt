// Running a graph: a run is lent as words, and worked on in place.
ghost use Rattle.std.specs.Prelude.{◌≡◌, true, []};
ghost use Rattle.c_words.specs.Told.{number_words, value_words, entry_words, places_words, message_words, done_told, done_saying, message_said, value_told, held_told, entry_told};
ghost use Rattle.c_words.specs.Given.{answering, reading, Gives, Does, Tells};
ghost use Rattle.c_words.specs.Handed.{values_known, message_from};
ghost use Rattle.c_words.specs.Lent.{new_run_at, transition_at, wait_at, receive_at, can_wait_at, is_waiting_at};
ghost use Rattle.c_words.specs.Lent.{possible_at, nosync_at, value_at, time_at, time_told, states_at, send_at, said_at};

use c_words::inner::{given, handed, lent};

pub fn njn_run_new(t: &[u64], r: &mut [u64]) -> u32
    ensures { Does result r.new (answering 0 true r.old [] (done_told (new_run_at t.now r.old).answer)
        (new_run_at t.now r.old).words) }
{
    given::done(lent::new(t, r))
}

pub fn njn_run_transition(t: &[u64], r: &mut [u64], action: u32, posts: &[u32], word: u64) -> u32
    ensures { Does result r.new (answering 0 true r.old []
        (done_told (transition_at t.now r.old action posts.now word).answer)
        (transition_at t.now r.old action posts.now word).words) }
{
    given::done(lent::transition(t, r, action, posts, word))
}

pub fn njn_run_receive(t: &[u64], r: &mut [u64], action: u32, posts: &[u32], values: &[u64]) -> u32
    ensures { Does result r.new (answering 0 (values_known values.now) r.old []
        (done_told (receive_at t.now r.old action posts.now (message_from values.now)).answer)
        (receive_at t.now r.old action posts.now (message_from values.now)).words) }
{
    if !handed::values_known(values) {
        return given::MALFORMED;
    }
    let message = handed::message_of(values);
    given::done(lent::receive(t, r, action, posts, message))
}

pub fn njn_run_wait(t: &[u64], r: &mut [u64], delta: u32) -> u32
    ensures { Does result r.new (answering 0 true r.old [] (done_told (wait_at t.now r.old delta).answer)
        (wait_at t.now r.old delta).words) }
{
    given::done(lent::wait(t, r, delta))
}

pub fn njn_run_can_wait(t: &[u64], r: &[u64], delta: u32, out: &mut [u64]) -> u32
    ensures { Tells result out.new (reading number_words out.old (held_told (can_wait_at t.now r.now delta))) }
{
    if out.len() < given::NUMBER {
        return given::SHORT;
    }
    given::told(lent::can_wait(t, r, delta), out)
}

pub fn njn_run_is_waiting(t: &[u64], r: &[u64], out: &mut [u64]) -> u32
    ensures { Tells result out.new (reading number_words out.old (held_told (is_waiting_at t.now r.now))) }
{
    if out.len() < given::NUMBER {
        return given::SHORT;
    }
    given::told(lent::is_waiting(t, r), out)
}

pub fn njn_run_possible_transitions(t: &[u64], r: &[u64], k: usize, out: &mut [u64]) -> u32
    ensures { Tells result out.new (reading entry_words out.old (entry_told (possible_at t.now r.now k))) }
{
    if out.len() < given::ENTRY {
        return given::SHORT;
    }
    given::told(lent::possible_transitions(t, r, k), out)
}

pub fn njn_run_nosync_possible_transitions(t: &[u64], r: &[u64], k: usize, out: &mut [u64]) -> u32
    ensures { Tells result out.new (reading entry_words out.old (entry_told (nosync_at t.now r.now k))) }
{
    if out.len() < given::ENTRY {
        return given::SHORT;
    }
    given::told(lent::nosync_possible_transitions(t, r, k), out)
}

pub fn njn_run_send(
    t: &[u64],
    r: &mut [u64],
    action: u32,
    posts: &[u32],
    word: u64,
    out: &mut [u64],
) -> u32
    ensures { Gives result r.new out.new (answering message_words true r.old out.old
        (done_saying (send_at t.now r.old action posts.now word).answer
        (message_said (said_at t.now r.old action posts.now word)))
        (send_at t.now r.old action posts.now word).words) }
{
    if out.len() < given::MESSAGE {
        return given::SHORT;
    }
    given::message(lent::send(t, r, action, posts, word), out)
}

pub fn njn_run_value(t: &[u64], r: &[u64], var: u32, out: &mut [u64]) -> u32
    ensures { Tells result out.new (reading value_words out.old (value_told (value_at t.now r.now var))) }
{
    if out.len() < given::VALUE {
        return given::SHORT;
    }
    given::told(lent::value(t, r, var), out)
}

pub fn njn_run_time(t: &[u64], r: &[u64], clock: u32, out: &mut [u64]) -> u32
    ensures { Tells result out.new (reading number_words out.old (time_told (time_at t.now r.now clock))) }
{
    if out.len() < given::NUMBER {
        return given::SHORT;
    }
    given::told(lent::time(t, r, clock), out)
}

pub fn njn_run_current_states(t: &[u64], r: &[u64], out: &mut [u64]) -> u32
    ensures { Tells result out.new (reading places_words out.old (states_at t.now r.now)) }
{
    if out.len() < given::PLACES {
        return given::SHORT;
    }
    lent::current_states(t, r, out)
}
