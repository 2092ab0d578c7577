// The words of a system written, each by its name: what the readers beside this file read.
ghost use Rattle.std.specs.Prelude.{◌≡◌, ◌<◌, set};
ghost use Rattle.graph_tables.specs.Sizes.{action_room, message_room};
ghost use Rattle.system_tables.specs.Sizes.{graph_room, channel_room};
ghost use Rattle.system_tables.specs.Layout.{graphs_cell, channels_cell, channel_row, channel_kind_cell, sort_cell, capacity_cell};
ghost use Rattle.system_tables.specs.Layout.{communication_cell};
ghost use Rattle.system_tables.specs.Words.{SystemWords, capacity_set, message_word, communication_word};

use crate::ids::{ChannelCapacity, Communication, Message};
use crate::layout;

pub fn set_graph_count(t: &mut [u64], n: usize)
    requires { SystemWords t.old }
    ensures { t.new ≡ set t.old graphs_cell n }
{
    t[layout::GRAPHS] = n as u64;
}

pub fn set_channel_count(t: &mut [u64], n: usize)
    requires { SystemWords t.old }
    ensures { t.new ≡ set t.old channels_cell n }
{
    t[layout::CHANNELS] = n as u64;
}

pub fn set_width(t: &mut [u64], q: usize, w: usize)
    requires { SystemWords t.old × (q < channel_room) }
    ensures { t.new ≡ set t.old (channel_row q) w }
{
    t[layout::CHANNELS_START + layout::CHANNEL_SPAN * q] = w as u64;
}

pub fn set_channel_kind(t: &mut [u64], q: usize, e: usize, kind: u64)
    requires { SystemWords t.old × (q < channel_room) × (e < message_room) }
    ensures { t.new ≡ set t.old (channel_kind_cell q e) kind }
{
    t[layout::CHANNELS_START + layout::CHANNEL_SPAN * q + (layout::KINDS + e)] = kind;
}

pub fn set_sort(t: &mut [u64], q: usize, sort: u64)
    requires { SystemWords t.old × (q < channel_room) }
    ensures { t.new ≡ set t.old (sort_cell q) sort }
{
    t[layout::CHANNELS_START + layout::CHANNEL_SPAN * q + layout::SORT] = sort;
}

pub fn set_bound(t: &mut [u64], q: usize, bound: u64)
    requires { SystemWords t.old × (q < channel_room) }
    ensures { t.new ≡ set t.old (capacity_cell q) bound }
{
    t[layout::CHANNELS_START + layout::CHANNEL_SPAN * q + layout::CAPACITY] = bound;
}

// The capacity of a channel: its sort, and its bound where it has one.
pub fn set_capacity(t: &mut [u64], q: usize, c: ChannelCapacity)
    requires { SystemWords t.old × (q < channel_room) }
    ensures { t.new ≡ capacity_set t.old q c }
{
    match c {
        ChannelCapacity::Bounded(n) => {
            set_sort(t, q, layout::BOUNDED);
            set_bound(t, q, n as u64);
        }
        ChannelCapacity::Unbounded => set_sort(t, q, layout::UNBOUNDED),
        ChannelCapacity::Sink => set_sort(t, q, layout::SINK),
    }
}

pub fn message_word(m: Message) -> u64
    ensures { result ≡ message_word m }
{
    match m {
        Message::Send => layout::SEND,
        Message::Receive => layout::RECEIVE,
        Message::ProbeEmptyQueue => layout::EMPTY,
        Message::ProbeFullQueue => layout::FULL,
    }
}

pub fn communication_word(c: Communication) -> u64
    ensures { result ≡ communication_word c }
{
    match c {
        Communication::Plain => layout::NO_COMMUNICATION,
        Communication::On(m, q) => message_word(m) + layout::COMMUNICATION_SPAN * (q.0 as u64),
    }
}

pub fn set_communication(t: &mut [u64], g: usize, a: usize, c: Communication)
    requires { SystemWords t.old × (g < graph_room) × (a < action_room) }
    ensures { t.new ≡ set t.old (communication_cell g a) (communication_word c) }
{
    let w = communication_word(c);
    t[layout::MEMBERS_START + layout::MEMBER_SPAN * g + a] = w;
}
