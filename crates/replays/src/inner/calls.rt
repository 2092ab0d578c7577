// A record as a call, on a table and a state that fit.
ghost use Rattle.std.specs.Prelude.{◌≡◌, true, ◌<◌, ◌≤◌, length, take};
ghost use Rattle.recordings.specs.Layout.{record_bytes, post_room, step_kind};
ghost use Rattle.recordings.specs.Numbers.{byte, row};
ghost use Rattle.recordings.specs.Records.{kind_in, amount_in, graph_in, post_count_in, post_in, word_in, answer_in, entry_of, good_record};
ghost use Rattle.channel_system.specs.Chains.{answer_to, state_after, transition, wait};
ghost use Rattle.replays.specs.Facts.{Ready};
ghost use Rattle.replays.specs.Replay.{post_words, given_to, after_entry};

use crate::inner::numbers;
use channel_system::inner::{steps, waits};
use graph_tables::ids;
use graph_tables::layout::WORD32;
use recordings::inner::records;
use recordings::layout;
use system_tables::ids::{Action, PgId};

// The first n posts of a record, a word each: graph * 2^32 + location. A record gives each by its number, so a chain is no plainer.
fn post_words(r: &[u8], g: u8, n: usize, to: &mut [u64])
    requires { (length r.now ≡ record_bytes) × (n ≤ post_room) × (n ≤ length to.old) }
    ensures { (take n to.new ≡ post_words g (row (post_in r.now) 0 n))
        × (length to.new ≡ length to.old) }
{
    for j in 0..n {
        to[j] = g as u64 * WORD32 + records::post(r, j);
    }
}

// A step.
fn make_step(t: &[u64], s: &mut [u64], r: &[u8]) -> u32
    requires { Ready t.now s.old × (length r.now ≡ record_bytes) × (post_count_in r.now ≤ post_room) }
    ensures { (result ≡ answer_to t.now s.old (transition (graph_in r.now) (graph_in r.now)
        (amount_in r.now)
        (post_words (graph_in r.now) (row (post_in r.now) 0 (post_count_in r.now)))
        (word_in r.now)))
        × (s.new ≡ state_after t.now s.old (transition (graph_in r.now) (graph_in r.now)
        (amount_in r.now)
        (post_words (graph_in r.now) (row (post_in r.now) 0 (post_count_in r.now)))
        (word_in r.now))) }
{
    let g = r[layout::GRAPH];
    let n = r[layout::POST_COUNT] as usize;
    let mut posts = [0; layout::POSTS];
    post_words(r, g, n, &mut posts);
    let pg = g as u32;
    let a = records::amount(r);
    let word = records::word(r);
    numbers::answer_number(steps::step(
        t,
        s,
        PgId(pg),
        Action(PgId(pg), ids::Action(a)),
        &posts[0..n],
        word,
    ))
}

// A wait.
fn make_wait(t: &[u64], s: &mut [u64], r: &[u8]) -> u32
    requires { Ready t.now s.old × (length r.now ≡ record_bytes) }
    ensures { (result ≡ answer_to t.now s.old (wait (amount_in r.now)))
        × (s.new ≡ state_after t.now s.old (wait (amount_in r.now))) }
{
    numbers::waited_number(waits::wait(t, s, records::amount(r)))
}

// The call of a good record, and its number.
pub fn make_call(t: &[u64], s: &mut [u64], r: &[u8]) -> u32
    requires { Ready t.now s.old × (length r.now ≡ record_bytes) × (good_record r.now ≡ true) }
    ensures { (result ≡ given_to t.now s.old (entry_of r.now))
        × (s.new ≡ after_entry t.now s.old (entry_of r.now)) }
{
    if r[layout::KIND] == layout::STEP {
        return make_step(t, s, r);
    }
    make_wait(t, s, r)
}
