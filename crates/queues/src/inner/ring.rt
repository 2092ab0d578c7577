// Values between two counts, at places that are used again and again.
ghost use Rattle.std.specs.Prelude.{◌≡◌, ◌<◌, ◌≤◌, slice_index_or};
ghost use Rattle.grammar.specs.Evaluation.{blank};
ghost use Rattle.grammar.specs.Slots.{FitVal};
ghost use Rattle.graph_tables.specs.Sizes.{message_room};
ghost use Rattle.queues.specs.Layout.{QueueWords, read_of, write_of, pair_of};
ghost use Rattle.queues.specs.Queues.{stored_of, count_at, kind_word_at, payload_word_at, queue_of, Counted};
ghost use Rattle.queues.specs.Queues.{pushed, dropped, emptied, slots_for, pushed_all, first_of, FitMessage};

use crate::layout;
use grammar::inner::slots;
use grammar::values::{Slot, Val};
use graph_tables::handed::Message;

fn read_count(q: &[u64]) -> u32
    requires { Counted q.now }
    ensures { result ≡ read_of q.now }
{
    q[layout::READ] as u32
}

fn write_count(q: &[u64]) -> u32
    requires { Counted q.now }
    ensures { result ≡ write_of q.now }
{
    q[layout::WRITE] as u32
}

// How many values are stored.
pub fn stored(q: &[u64]) -> usize
    requires { Counted q.now }
    ensures { result ≡ stored_of q.now }
{
    std::num::wrapping_sub_u32(write_count(q), read_count(q)) as usize
}

// The pair of words of a count.
fn pair(count: u32) -> usize
    ensures { result ≡ pair_of count }
{
    layout::FIRST + count as usize % layout::ROOM
}

// The count of stored value i.
fn count_at(q: &[u64], i: usize) -> u32
    requires { Counted q.now × (i < stored_of q.now) }
    ensures { result ≡ count_at q.now i }
{
    std::num::wrapping_add_u32(read_count(q), i as u32)
}

// The two words of stored value i, its kind and its payload.
pub(crate) fn words_at(q: &[u64], i: usize) -> (u64, u64)
    requires { Counted q.now × (i < stored_of q.now) }
    ensures { (result.0 ≡ kind_word_at q.now i) × (result.1 ≡ payload_word_at q.now i) }
{
    let at = layout::PAIR * pair(count_at(q, i));
    (q[at], q[at + 1])
}

// Stored value i, from the oldest on.
pub fn value_at(q: &[u64], i: usize) -> Val
    requires { Counted q.now × (i < stored_of q.now) }
    ensures { result ≡ (slice_index_or (queue_of q.now) i blank).value }
{
    let (kind, payload) = words_at(q, i);
    slots::value_of(kind, payload)
}

// One value behind the newest.
pub fn push(q: &mut [u64], x: Val)
    requires { Counted q.old }
    ensures { (q.new ≡ pushed q.old x) × FitVal x }
{
    let at = write_count(q);
    slots::put(q, pair(at), x);
    q[layout::WRITE] = std::num::wrapping_add_u32(at, 1) as u64;
}

// The n oldest values are received.
pub fn drop_front(q: &mut [u64], n: usize)
    requires { Counted q.old × (n ≤ stored_of q.old) }
    ensures { q.new ≡ dropped q.old n }
{
    let at = read_count(q);
    q[layout::READ] = std::num::wrapping_add_u32(at, n as u32) as u64;
}

// A fresh queue.
pub fn empty(q: &mut [u64])
    requires { QueueWords q.old }
    ensures { q.new ≡ emptied q.old }
{
    q[layout::READ] = 0;
    q[layout::WRITE] = 0;
}

// How many slots a message of a width takes.
pub fn slots_for(width: usize) -> usize
    ensures { result ≡ slots_for width }
{
    width
}

// The values of a message behind the newest, in order.
pub fn push_all(q: &mut [u64], message: Message)
    requires { Counted q.old × (message.count ≤ message_room) }
    ensures { (q.new ≡ pushed_all q.old message) × FitMessage message }
{
    for slot in &message.values[..slots_for(message.count)] {
        push(q, slot.value);
    }
}

// The oldest message of a width. It stays.
pub fn first_values(q: &[u64], width: usize) -> Message
    requires { Counted q.now × (width ≤ message_room) × (slots_for width ≤ stored_of q.now) }
    ensures { result ≡ first_of q.now width }
{
    let slots = slots_for(width);
    let values = std::array::from_fn(|k| Slot {
        value: if k < slots {
            value_at(q, k)
        } else {
            Val::Boolean(false)
        },
    });
    Message {
        values,
        count: width,
    }
}
