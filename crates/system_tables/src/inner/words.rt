// The words of a system, each read by its name. Each function asks for a table of the right length and a number within its
// size; what stands there may be anything.
ghost use Rattle.std.specs.Prelude.{◌≡◌, ◌≤◌, ◌<◌};
ghost use Rattle.graph_tables.specs.Sizes.{action_room, message_room, word32};
ghost use Rattle.system_tables.specs.Sizes.{graph_room, channel_room};
ghost use Rattle.system_tables.specs.Layout.{graph_start};
ghost use Rattle.system_tables.specs.Words.{SystemWords, graph_count, channel_count, width_of, channel_kind, channel_kinds, sort_of, bound_of};
ghost use Rattle.system_tables.specs.Words.{capacity_of, graph_part, communication_at, message_part, channel_part};
ghost use Rattle.system_tables.specs.Words.{message_of, communication_in, communication_of};
ghost use Rattle.system_tables.specs.Sound.{BoundFits};

use crate::ids::{Channel, ChannelCapacity, Communication, Message};
use crate::layout;
use graph_tables::sizes;

pub fn graph_count(t: &[u64]) -> usize
    requires { SystemWords t.now }
    ensures { result ≡ graph_count t.now }
{
    t[layout::GRAPHS] as usize
}

pub fn channel_count(t: &[u64]) -> usize
    requires { SystemWords t.now }
    ensures { result ≡ channel_count t.now }
{
    t[layout::CHANNELS] as usize
}

pub fn width_of(t: &[u64], q: usize) -> usize
    requires { SystemWords t.now × (q < channel_room) }
    ensures { result ≡ width_of t.now q }
{
    t[layout::CHANNELS_START + layout::CHANNEL_SPAN * q] as usize
}

pub fn channel_kind(t: &[u64], q: usize, e: usize) -> u64
    requires { SystemWords t.now × (q < channel_room) × (e < message_room) }
    ensures { result ≡ channel_kind t.now q e }
{
    t[layout::CHANNELS_START + layout::CHANNEL_SPAN * q + (layout::KINDS + e)]
}

// All kinds of a channel's values.
pub fn kinds_at(t: &[u64], q: usize) -> &[u64]
    requires { SystemWords t.now × (q < channel_room) × (width_of t.now q ≤ message_room) }
    ensures { result.now ≡ channel_kinds t.now q }
{
    let a = layout::CHANNELS_START + layout::CHANNEL_SPAN * q + layout::KINDS;
    let e = a + width_of(t, q);
    &t[a..e]
}

pub fn sort_of(t: &[u64], q: usize) -> u64
    requires { SystemWords t.now × (q < channel_room) }
    ensures { result ≡ sort_of t.now q }
{
    t[layout::CHANNELS_START + layout::CHANNEL_SPAN * q + layout::SORT]
}

pub fn bound_of(t: &[u64], q: usize) -> u64
    requires { SystemWords t.now × (q < channel_room) }
    ensures { result ≡ bound_of t.now q }
{
    t[layout::CHANNELS_START + layout::CHANNEL_SPAN * q + layout::CAPACITY]
}

// The capacity of a channel.
pub fn capacity_of(t: &[u64], q: usize) -> ChannelCapacity
    requires { SystemWords t.now × (q < channel_room) × BoundFits t.now q }
    ensures { result ≡ capacity_of t.now q }
{
    let sort = sort_of(t, q);
    if sort == layout::BOUNDED {
        return ChannelCapacity::Bounded(bound_of(t, q) as u32);
    }
    if sort == layout::UNBOUNDED {
        return ChannelCapacity::Unbounded;
    }
    ChannelCapacity::Sink
}

// Where the words of a graph start.
pub fn graph_start(g: usize) -> usize
    requires { g < graph_room }
    ensures { result ≡ graph_start g }
{
    layout::MEMBERS_START + layout::MEMBER_SPAN * g + layout::OWN
}

// The words of a graph alone, for the graph's own calls.
pub fn graph_at(t: &[u64], g: usize) -> &[u64]
    requires { SystemWords t.now × (g < graph_room) }
    ensures { result.now ≡ graph_part t.now g }
{
    let a = graph_start(g);
    let e = a + sizes::WORDS;
    &t[a..e]
}

pub fn communication_at(t: &[u64], g: usize, a: usize) -> u64
    requires { SystemWords t.now × (g < graph_room) × (a < action_room) }
    ensures { result ≡ communication_at t.now g a }
{
    t[layout::MEMBERS_START + layout::MEMBER_SPAN * g + a]
}

// The kind of a communication, and its channel.
pub fn message_part(w: u64) -> u64
    ensures { result ≡ message_part w }
{
    w % layout::COMMUNICATION_SPAN
}

pub fn channel_part(w: u64) -> usize
    ensures { result ≡ channel_part w }
{
    (w / layout::COMMUNICATION_SPAN) as usize
}

// Every number has a kind here (`message_of` of specs/), so TryFrom, which refuses some, isn't it: what may not change.
pub fn message_of(k: u64) -> Message
    ensures { result ≡ message_of k }
{
    if k == layout::SEND {
        return Message::Send;
    }
    if k == layout::RECEIVE {
        return Message::Receive;
    }
    if k == layout::EMPTY {
        return Message::ProbeEmptyQueue;
    }
    Message::ProbeFullQueue
}

pub fn communication_in(w: u64) -> Communication
    requires { channel_part w < word32 }
    ensures { result ≡ communication_in w }
{
    if w == layout::NO_COMMUNICATION {
        return Communication::Plain;
    }
    let m = message_of(message_part(w));
    let q = channel_part(w) as u32;
    Communication::On(m, Channel(q))
}

// The communication of an action of a graph.
pub fn communication_of(t: &[u64], g: usize, a: usize) -> Communication
    requires { SystemWords t.now × (g < graph_room) × (a < action_room) × (channel_part (communication_at t.now g a) < word32) }
    ensures { result ≡ communication_of t.now g a }
{
    communication_in(communication_at(t, g, a))
}
