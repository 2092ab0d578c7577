// Whether a queue is one of a channel, which has a kind for each value of a message. Free places are not read.
ghost use Rattle.std.specs.Prelude.{◌≡◌, ◌<◌, ◌≤◌, length};
ghost use Rattle.laws.specs.Below.{all_below};
ghost use Rattle.queues.specs.Layout.{QueueWords};
ghost use Rattle.queues.specs.Queues.{stored_of, Counted};
ghost use Rattle.queues.specs.Fits.{whole_messages, kind_for, slot_fits, counts_fit, queue_fits};

use crate::inner::ring;
use crate::layout;
use grammar::inner::slots;
use graph_tables::layout::WORD32;

// So many slots are whole messages.
fn whole_messages(width: usize, n: usize) -> bool
    ensures { result ≡ whole_messages width n }
{
    let slots = ring::slots_for(width);
    if slots == 0 {
        return n == 0;
    }
    n % slots == 0
}

// The kind of stored value i.
fn kind_for(kinds: &[u64], i: usize) -> u64
    requires { 0 < length kinds.now }
    ensures { result ≡ kind_for kinds.now i }
{
    let slots = ring::slots_for(kinds.len());
    kinds[i % slots]
}

// Stored value i is one, of its kind.
fn slot_fits(q: &[u64], kinds: &[u64], i: usize) -> bool
    requires { Counted q.now × (i < stored_of q.now) × (0 < length kinds.now) }
    ensures { result ≡ slot_fits q.now kinds.now i }
{
    let (kind, payload) = ring::words_at(q, i);
    if kind != kind_for(kinds, i) {
        return false;
    }
    slots::is_value(kind, payload)
}

// So are the first n.
fn slots_fit(q: &[u64], kinds: &[u64], n: usize) -> bool
    requires { Counted q.now × (n ≤ stored_of q.now) × (0 < n → 0 < length kinds.now) }
    ensures { result ≡ all_below n (slot_fits q.now kinds.now) }
{
    (0..n).all(|i| slot_fits(q, kinds, i))
}

// Each count has 32 bits.
fn counts_fit(q: &[u64]) -> bool
    requires { QueueWords q.now }
    ensures { result ≡ counts_fit q.now }
{
    if WORD32 <= q[layout::READ] {
        return false;
    }
    q[layout::WRITE] < WORD32
}

// The queue is one of a channel of these kinds and this ceiling.
pub fn queue_fits(q: &[u64], kinds: &[u64], ceiling: usize) -> bool
    requires { QueueWords q.now }
    ensures { result ≡ queue_fits q.now kinds.now ceiling }
{
    if !counts_fit(q) {
        return false;
    }
    let n = ring::stored(q);
    if ceiling < n {
        return false;
    }
    if !whole_messages(kinds.len(), n) {
        return false;
    }
    slots_fit(q, kinds, n)
}
