// The queue of a channel: what it asks, and how a message goes in and comes out.
ghost use Rattle.std.specs.Prelude.{◌≡◌, ◌<◌, ◌≤◌};
ghost use Rattle.graph_tables.specs.Sizes.{message_room};
ghost use Rattle.queues.specs.Queues.{stored_of, slots_for, Counted};
ghost use Rattle.system_tables.specs.Words.{channel_count, width_of};
ghost use Rattle.system_tables.specs.Sound.{SystemSound};
ghost use Rattle.system_state.specs.Words.{StateWords, queue_part};
ghost use Rattle.system_state.specs.Fits.{StateSound};
ghost use Rattle.channel_system.specs.Steps.{channel_answer, stores, sent_into, oldest_in, taken_from};

use crate::inner::channels;
use graph_tables::answers::Answer;
use graph_tables::handed;
use queues::inner::ring;
use system_state::inner::words;
use system_tables::ids::{ChannelCapacity, Message};

// What the channel says to a step.
pub fn channel_answer(t: &[u64], s: &[u64], q: usize, m: Message) -> Answer<()>
    requires { SystemSound t.now × StateSound t.now s.now × (q < channel_count t.now) }
    ensures { result ≡ channel_answer t.now s.now q m }
{
    let stored = ring::stored(words::queue_at(s, q));
    let width = system_tables::inner::words::width_of(t, q);
    let capacity = system_tables::inner::words::capacity_of(t, q);
    channels::step_test(m, stored, width, capacity)
}

fn stores_in(c: ChannelCapacity) -> bool
    ensures { result ≡ stores c }
{
    match c {
        ChannelCapacity::Bounded(_) | ChannelCapacity::Unbounded => true,
        ChannelCapacity::Sink => false,
    }
}

// A message more. Of a sink nothing is stored.
pub fn send_into(t: &[u64], s: &mut [u64], q: usize, message: handed::Message)
    requires { SystemSound t.now × (q < channel_count t.now) × StateWords s.old × Counted (queue_part s.old q)
        × (message.count ≤ message_room) }
    ensures { s.new ≡ sent_into t.now s.old q message }
{
    let capacity = system_tables::inner::words::capacity_of(t, q);
    if !stores_in(capacity) {
        return;
    }
    let at = words::queue_start(q);
    let end = at + queues::layout::WORDS;
    ring::push_all(&mut s[at..end], message)
}

// The oldest message. It stays.
pub fn oldest_in(t: &[u64], s: &[u64], q: usize) -> handed::Message
    requires { SystemSound t.now × StateSound t.now s.now × (q < channel_count t.now)
        × (slots_for (width_of t.now q) ≤ stored_of (queue_part s.now q)) }
    ensures { result ≡ oldest_in t.now s.now q }
{
    ring::first_values(
        words::queue_at(s, q),
        system_tables::inner::words::width_of(t, q),
    )
}

// The oldest message is received.
pub fn take_from(t: &[u64], s: &mut [u64], q: usize)
    requires { SystemSound t.now × (q < channel_count t.now) × StateWords s.old × Counted (queue_part s.old q)
        × (slots_for (width_of t.now q) ≤ stored_of (queue_part s.old q)) }
    ensures { s.new ≡ taken_from t.now s.old q }
{
    let width = system_tables::inner::words::width_of(t, q);
    let at = words::queue_start(q);
    let end = at + queues::layout::WORDS;
    ring::drop_front(&mut s[at..end], ring::slots_for(width))
}
