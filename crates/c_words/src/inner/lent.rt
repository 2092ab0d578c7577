// A run in lent words: each call tests it, and then works on it in place.
ghost use Rattle.std.specs.Prelude.{◌≡◌, Err};
ghost use Rattle.laws.specs.Ladder.{unless};
ghost use Rattle.graph_tables.specs.Answers.{admitted};
ghost use Rattle.graph_tables.specs.Refusals.{refusal};
ghost use Rattle.c_words.specs.Lent.{run_fits, new_run_at, transition_at, wait_at, send_at, said_at, receive_at, can_wait_at, is_waiting_at};
ghost use Rattle.c_words.specs.Lent.{possible_at, nosync_at, value_at, time_at, states_at};
ghost use Rattle.c_words.specs.Told.{Says};
ghost use Rattle.program_graph.specs.Outcomes.{accepts, values_said};

use crate::inner::values;
use grammar::inner::slots;
use grammar::values::Val;
use graph_tables::answers::{Answer, Entry};
use graph_tables::handed::Message;
use graph_tables::refusals::Refusal;
use graph_tables::{formed, inner, runs};
use program_graph::inner::{fits, fresh_words, listing, messages, steps, waits};

// The test behind 32.
#[tactic(auto, using(graph_tables::proofs::SoundLaws::sound), unfolding(crate::specs::Lent::run_fits))]
pub fn run_fits(t: &[u64], r: &[u64]) -> bool
    ensures { result ≡ run_fits t.now r.now }
{
    formed::well_formed(t, false) && r.len() == runs::WORDS && fits::run_words_fit(t, r)
}

// The answer of that test.
#[tactic(auto, unfolding(laws::specs::Ladder::unless))]
fn tested(t: &[u64], r: &[u64]) -> Answer<()>
    ensures { result ≡ unless (run_fits t.now r.now) (Err (refusal 32)) admitted }
{
    if run_fits(t, r) {
        Ok(())
    } else {
        Err(Refusal::BadState)
    }
}

#[tactic(auto, using(graph_tables::proofs::SoundLaws::sound), unfolding(crate::specs::Lent::new_run_at, laws::specs::Ladder::unless))]
pub fn new(t: &[u64], r: &mut [u64]) -> Answer<()>
    ensures { (result ≡ (new_run_at t.now r.old).answer) × (r.new ≡ (new_run_at t.now r.old).words) }
{
    if !formed::well_formed(t, false) || r.len() != runs::WORDS {
        return Err(Refusal::BadState);
    }
    fresh_words::fresh_words(t, r);
    Ok(())
}

#[tactic(auto, using(crate::proofs::LentLaws::table_sound, crate::proofs::LentLaws::run_of, crate::proofs::LentLaws::transition_left), unfolding(crate::specs::Lent::moved_as, laws::specs::Ladder::unless))]
pub fn transition(t: &[u64], r: &mut [u64], action: u32, posts: &[u32], word: u64) -> Answer<()>
    ensures { (result ≡ (transition_at t.now r.old action posts.now word).answer)
        × (r.new ≡ (transition_at t.now r.old action posts.now word).words) }
{
    tested(t, r)?;
    steps::step(t, r, action, posts, word)
}

#[tactic(auto, using(crate::proofs::LentLaws::table_sound, crate::proofs::LentLaws::run_of, crate::proofs::LentLaws::wait_left), unfolding(crate::specs::Lent::moved_as, laws::specs::Ladder::unless))]
pub fn wait(t: &[u64], r: &mut [u64], delta: u32) -> Answer<()>
    ensures { (result ≡ (wait_at t.now r.old delta).answer)
        × (r.new ≡ (wait_at t.now r.old delta).words) }
{
    tested(t, r)?;
    waits::wait_on(t, r, delta)
}

#[tactic(auto, using(crate::proofs::LentLaws::table_sound, crate::proofs::LentLaws::run_of, crate::proofs::LentLaws::send_left), unfolding(crate::specs::Lent::moved_as, crate::specs::Lent::said_at, laws::specs::Ladder::unless))]
pub fn send(t: &[u64], r: &mut [u64], action: u32, posts: &[u32], word: u64) -> Answer<Message>
    ensures { (accepts result ≡ (send_at t.now r.old action posts.now word).answer)
        × (values_said result ≡ said_at t.now r.old action posts.now word)
        × (r.new ≡ (send_at t.now r.old action posts.now word).words) }
{
    tested(t, r)?;
    messages::send_on(t, r, action, posts, word)
}

#[tactic(auto, using(crate::proofs::LentLaws::table_sound, crate::proofs::LentLaws::run_of, crate::proofs::LentLaws::receive_left), unfolding(crate::specs::Lent::moved_as, laws::specs::Ladder::unless))]
pub fn receive(t: &[u64], r: &mut [u64], action: u32, posts: &[u32], message: Message) -> Answer<()>
    ensures { (result ≡ (receive_at t.now r.old action posts.now message).answer)
        × (r.new ≡ (receive_at t.now r.old action posts.now message).words) }
{
    tested(t, r)?;
    messages::receive_on(t, r, action, posts, message)
}

#[tactic(auto, using(crate::proofs::LentLaws::table_sound, crate::proofs::LentLaws::run_of, crate::proofs::LentLaws::fits_table_lem), unfolding(crate::specs::Lent::can_wait_at, program_graph::specs::Running::can_wait_of, laws::specs::Ladder::unless))]
pub fn can_wait(t: &[u64], r: &[u64], delta: u32) -> Answer<bool>
    ensures { result ≡ can_wait_at t.now r.now delta }
{
    tested(t, r)?;
    Ok(waits::can_wait_on(t, r, delta))
}

#[tactic(auto, using(crate::proofs::LentLaws::table_sound, crate::proofs::LentLaws::run_of, crate::proofs::LentLaws::fits_table_lem), unfolding(crate::specs::Lent::is_waiting_at, program_graph::specs::Running::is_waiting_of, laws::specs::Ladder::unless))]
pub fn is_waiting(t: &[u64], r: &[u64]) -> Answer<bool>
    ensures { result ≡ is_waiting_at t.now r.now }
{
    tested(t, r)?;
    Ok(waits::is_waiting_on(t, r))
}

#[tactic(auto, using(crate::proofs::LentLaws::table_sound, crate::proofs::LentLaws::run_of, crate::proofs::LentLaws::fits_table_lem), unfolding(crate::specs::Lent::possible_at, program_graph::specs::Transitions::possible_of, laws::specs::Ladder::unless))]
pub fn possible_transitions(t: &[u64], r: &[u64], k: usize) -> Answer<Option<Entry>>
    ensures { result ≡ possible_at t.now r.now k }
{
    tested(t, r)?;
    listing::listed_on(t, r, k)
}

#[tactic(auto, using(crate::proofs::LentLaws::table_sound, crate::proofs::LentLaws::run_of, crate::proofs::LentLaws::fits_table_lem), unfolding(crate::specs::Lent::nosync_at, program_graph::specs::Transitions::nosync_of, laws::specs::Ladder::unless))]
pub fn nosync_possible_transitions(t: &[u64], r: &[u64], k: usize) -> Answer<Option<Entry>>
    ensures { result ≡ nosync_at t.now r.now k }
{
    tested(t, r)?;
    if values::word_at(r, runs::PROCESSES) != 1 {
        return Err(Refusal::Sync);
    }
    listing::listed_on(t, r, k)
}

#[tactic(auto, using(crate::proofs::LentLaws::table_sound, crate::proofs::LentLaws::words, crate::proofs::LentLaws::fits_table_lem, crate::proofs::LentLaws::var_here, crate::proofs::LentLaws::few_variables), unfolding(crate::specs::Lent::value_at, program_graph::specs::Running::value_in, laws::specs::Ladder::unless))]
pub fn value(t: &[u64], r: &[u64], var: u32) -> Answer<Val>
    ensures { result ≡ value_at t.now r.now var }
{
    tested(t, r)?;
    let v = var as usize;
    if inner::variable_count(t) <= v {
        return Err(Refusal::MissingVar);
    }
    let kind = values::word_at(r, runs::VARS + 2 * v);
    let payload = values::word_at(r, runs::VARS + 2 * v + 1);
    Ok(slots::value_of(kind, payload))
}

// The time of a clock, as a word.
#[tactic(auto, using(crate::proofs::LentLaws::table_sound, crate::proofs::LentLaws::fits_table_lem, crate::proofs::LentLaws::clock_here, crate::proofs::LentLaws::few_clocks), unfolding(crate::specs::Lent::time_at, program_graph::specs::Running::time_of, laws::specs::Ladder::unless))]
pub fn time(t: &[u64], r: &[u64], clock: u32) -> Answer<u64>
    ensures { result ≡ time_at t.now r.now clock }
{
    tested(t, r)?;
    let c = clock as usize;
    if inner::clock_count(t) <= c {
        return Err(Refusal::MissingClock);
    }
    Ok(values::word_at(r, runs::CLOCKS + c))
}

// Where the processes are: how many, and four places.
#[tactic(auto, using(crate::proofs::LentLaws::fits_table_lem, crate::proofs::LentLaws::place_here), unfolding(crate::specs::Lent::states_at, program_graph::specs::Running::states_of, laws::specs::Ladder::unless))]
pub fn current_states(t: &[u64], r: &[u64], out: &mut [u64]) -> u32
    ensures { Says result out.new out.old (states_at t.now r.now) }
{
    if !run_fits(t, r) {
        return Refusal::BadState.number();
    }
    values::put_all(
        out,
        &[
            values::word_at(r, runs::PROCESSES),
            values::word_at(r, runs::PLACES),
            values::word_at(r, runs::PLACES + 1),
            values::word_at(r, runs::PLACES + 2),
            values::word_at(r, runs::PLACES + 3),
        ],
    );
    0
}
