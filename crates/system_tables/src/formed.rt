// The test behind refusal 32: whether a system's table that is handed in is well formed. Its cost goes by what is used: no
// unused row or word is read.
ghost use Rattle.std.specs.Prelude.{◌≡◌, true, ℕ, ◌≤◌, ◌<◌};
ghost use Rattle.laws.specs.Below.{all_below};
ghost use Rattle.graph_tables.specs.Sizes.{action_room, message_room};
ghost use Rattle.graph_tables.specs.Sound.{Sound};
ghost use Rattle.system_tables.specs.Sizes.{graph_room, channel_room};
ghost use Rattle.system_tables.specs.Words.{SystemWords, graph_part};
ghost use Rattle.system_tables.specs.Formed.{system_counted, graph_formed, members_formed, system_formed};
ghost use Rattle.system_tables.specs.Formed.{channel_kind_formed, capacity_formed, channel_formed};
ghost use Rattle.system_tables.specs.Formed.{value_fits, message_fits, is_probe, probe_formed, message_formed};
ghost use Rattle.system_tables.specs.Formed.{communication_fits, communication_formed, communications_formed};
ghost use Rattle.system_tables.specs.Sound.{ChannelsFormed, ChannelKnown, ActionKnown, ValueKnown};

use crate::inner::{ceiling, words};
use crate::{layout, sizes};
use graph_tables::inner::messages;
use graph_tables::{formed, inner};

fn system_counted(t: &[u64]) -> bool
    requires { SystemWords t.now }
    ensures { result ≡ system_counted t.now }
{
    if sizes::GRAPHS < words::graph_count(t) {
        return false;
    }
    words::channel_count(t) <= sizes::CHANNELS
}

fn graph_formed(t: &[u64], building: bool, g: usize) -> bool
    requires { SystemWords t.now × (g < graph_room) }
    ensures { result ≡ graph_formed t.now building g }
{
    formed::well_formed(words::graph_at(t, g), building)
}

fn channel_kind_formed(t: &[u64], q: usize, e: usize) -> bool
    requires { SystemWords t.now × (q < channel_room) × (e < message_room) }
    ensures { result ≡ channel_kind_formed t.now q e }
{
    words::channel_kind(t, q, e) < graph_tables::layout::NO_KIND
}

fn capacity_formed(t: &[u64], q: usize) -> bool
    requires { SystemWords t.now × (q < channel_room) }
    ensures { result ≡ capacity_formed t.now q }
{
    let sort = words::sort_of(t, q);
    if sort == layout::BOUNDED {
        return words::bound_of(t, q) < graph_tables::layout::WORD32;
    }
    sort <= layout::SINK
}

fn channel_formed(t: &[u64], q: usize) -> bool
    requires { SystemWords t.now × (q < channel_room) }
    ensures { result ≡ channel_formed t.now q }
{
    let w = words::width_of(t, q);
    if graph_tables::sizes::MESSAGE < w {
        return false;
    }
    if !(0..w).all(|e| channel_kind_formed(t, q, e)) {
        return false;
    }
    if !capacity_formed(t, q) {
        return false;
    }
    ceiling::has_room(w, words::capacity_of(t, q))
}

// Whether value e of a message is of the kind that the channel has there.
fn value_fits(t: &[u64], q: usize, graph: &[u64], a: usize, e: usize) -> bool
    requires { ValueKnown t.now q graph.now a e }
    ensures { result ≡ value_fits t.now q graph.now a e }
{
    messages::value_kind(graph, a, e) == words::channel_kind(t, q, e)
}

// Whether the message of an action is one of the channel.
fn message_fits(t: &[u64], q: usize, graph: &[u64], a: usize) -> bool
    requires { ChannelKnown t.now q × ActionKnown graph.now a }
    ensures { result ≡ message_fits t.now q graph.now a }
{
    let w = words::width_of(t, q);
    if messages::message_count(graph, a) != w {
        return false;
    }
    (0..w).all(|e| value_fits(t, q, graph, a, e))
}

fn is_probe(k: u64) -> bool
    ensures { result ≡ is_probe k }
{
    k == layout::EMPTY || k == layout::FULL
}

fn probe_formed(k: u64, graph: &[u64], a: usize) -> bool
    requires { ActionKnown graph.now a }
    ensures { result ≡ probe_formed k graph.now a }
{
    if !is_probe(k) {
        return false;
    }
    if !messages::is_send(graph, a) {
        return false;
    }
    messages::message_count(graph, a) == 0
}

// Whether an action is of this kind, on this channel.
fn message_formed(t: &[u64], k: u64, q: usize, graph: &[u64], a: usize) -> bool
    requires { ChannelKnown t.now q × ActionKnown graph.now a }
    ensures { result ≡ message_formed t.now k q graph.now a }
{
    if k == layout::SEND {
        return messages::is_send(graph, a) && message_fits(t, q, graph, a);
    }
    if k == layout::RECEIVE {
        return messages::is_receive(graph, a) && message_fits(t, q, graph, a);
    }
    probe_formed(k, graph, a)
}

// Whether a communication is that of an action.
fn communication_fits(t: &[u64], w: u64, graph: &[u64], a: usize) -> bool
    requires { ChannelsFormed t.now × ActionKnown graph.now a }
    ensures { result ≡ communication_fits t.now w graph.now a }
{
    if w == layout::NO_COMMUNICATION {
        return messages::is_plain(graph, a);
    }
    let q = words::channel_part(w);
    if words::channel_count(t) <= q {
        return false;
    }
    message_formed(t, words::message_part(w), q, graph, a)
}

fn communication_formed(t: &[u64], g: usize, a: usize) -> bool
    requires { ChannelsFormed t.now × (g < graph_room) × ActionKnown (graph_part t.now g) a }
    ensures { result ≡ communication_formed t.now g a }
{
    let w = words::communication_at(t, g, a);
    communication_fits(t, w, words::graph_at(t, g), a)
}

fn communications_formed(t: &[u64], g: usize) -> bool
    requires { ChannelsFormed t.now × (g < graph_room) × Sound (graph_part t.now g) }
    ensures { result ≡ communications_formed t.now g }
{
    let n = inner::action_count(words::graph_at(t, g));
    (0..n).all(|a| communication_formed(t, g, a))
}

fn members_formed(t: &[u64], building: bool) -> bool
    requires { SystemWords t.now × (system_counted t.now ≡ true) }
    ensures { result ≡ members_formed t.now building }
{
    let n = words::graph_count(t);
    if !(0..n).all(|g| graph_formed(t, building, g)) {
        return false;
    }
    if !(0..words::channel_count(t)).all(|q| channel_formed(t, q)) {
        return false;
    }
    (0..n).all(|g| communications_formed(t, g))
}

// Whether a system's table is well formed; while it is being built its graphs may lack a process.
pub fn system_formed(t: &[u64], building: bool) -> bool
    ensures { result ≡ system_formed t.now building }
{
    if t.len() != sizes::WORDS {
        return false;
    }
    if !system_counted(t) {
        return false;
    }
    members_formed(t, building)
}
