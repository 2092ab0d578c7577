// Building a channel system on a lent table. A refusal leaves every word as it was.
#![tactic(auto)]

ghost use Rattle.std.specs.Prelude.{◌≡◌};
ghost use Rattle.system_builder.specs.Systems.{empty_system_of, new_graph_of, new_channel_of, build_system_of, channel_in};

use crate::answers::ChannelRead;
use crate::handed::Kinds;
use crate::inner::{channels, checks, graphs};
use graph_tables::answers::Answer;
use graph_tables::refusals::Refusal;
use system_tables::ids::{Channel, ChannelCapacity};
use system_tables::inner::{words, writers};
use system_tables::{formed, layout, sizes};

pub mod answers;
pub mod handed;
pub mod inner;
pub mod messages;
pub mod on_graph;

// An empty system: the counts alone are written.
#[tactic(auto, unfolding(crate::specs::Systems::empty_system_of, laws::specs::Ladder::unless))]
pub fn new(t: &mut [u64]) -> Answer<()>
    ensures { (result ≡ (empty_system_of t.old).answer) × (t.new ≡ (empty_system_of t.old).table) }
{
    if t.len() != sizes::WORDS {
        return Err(Refusal::BadState);
    }
    t[layout::GRAPHS] = 0;
    t[layout::CHANNELS] = 0;
    Ok(())
}

// An empty graph, behind the others.
#[tactic(auto, unfolding(crate::specs::Systems::new_graph_of))]
pub fn new_program_graph(t: &mut [u64]) -> Answer<u32>
    ensures { (result ≡ (new_graph_of t.old).answer) × (t.new ≡ (new_graph_of t.old).table) }
{
    checks::graph_check(t)?;
    let g = words::graph_count(t);
    graphs::clear_graph(t, g);
    writers::set_graph_count(t, g + 1);
    Ok(g as u32)
}

// A channel whose messages have values of these kinds.
#[tactic(auto, unfolding(crate::specs::Systems::new_channel_of))]
pub fn new_channel(t: &mut [u64], kinds: Kinds, capacity: ChannelCapacity) -> Answer<u32>
    ensures { (result ≡ (new_channel_of t.old kinds capacity).answer) × (t.new ≡ (new_channel_of t.old kinds capacity).table) }
{
    checks::channel_check(t, kinds, capacity)?;
    let q = words::channel_count(t);
    channels::put_channel(t, q, kinds, capacity);
    writers::set_channel_count(t, q + 1);
    Ok(q as u32)
}

// Whether the system can be run: each of its graphs has a process.
#[tactic(auto, using(crate::proofs::SystemLaws::words_of), unfolding(crate::specs::Systems::build_system_of, laws::specs::Ladder::unless))]
pub fn build(t: &[u64]) -> Answer<()>
    ensures { result ≡ build_system_of t.now }
{
    if !formed::system_formed(t, true) {
        return Err(Refusal::BadState);
    }
    if !graphs::all_started(t, words::graph_count(t)) {
        return Err(Refusal::NoProcess);
    }
    Ok(())
}

// What a channel of a built system carries, and how much it holds.
#[tactic(auto, unfolding(crate::specs::Systems::channel_in))]
pub fn channel(t: &[u64], channel: Channel) -> ChannelRead
    ensures { result ≡ channel_in t.now channel.0 }
{
    let check = checks::read_check(t, channel.0);
    if let Err(r) = check {
        return ChannelRead {
            answer: Err(r),
            kinds: Kinds::none(),
            capacity: ChannelCapacity::Sink,
        };
    }
    let q = channel.0 as usize;
    let kinds = channels::kinds_at(t, q);
    let capacity = words::capacity_of(t, q);
    ChannelRead {
        answer: Ok(()),
        kinds,
        capacity,
    }
}
