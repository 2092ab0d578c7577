// What the building calls of a system ask, in the order of their refusals. Nothing is written here.
ghost use Rattle.std.specs.Prelude.{◌≡◌};
ghost use Rattle.system_builder.specs.Systems.{graph_check, channel_check, read_check};
ghost use Rattle.graph_edits.specs.Edits.{chosen};
ghost use Rattle.system_builder.specs.Graphs.{member_check};
ghost use Rattle.system_builder.specs.Messages.{known_check, send_check_on, receive_check_on};

use crate::handed::Kinds;
use crate::inner::messages;
use graph_tables::answers::Answer;
use graph_tables::handed::Vars;
use graph_tables::refusals::Refusal;
use system_tables::ids::ChannelCapacity;
use system_tables::inner::{ceiling, words};
use system_tables::{formed, sizes};

// Room for one more graph.
#[tactic(auto, using(crate::proofs::SystemLaws::words_of), unfolding(crate::specs::Systems::graph_check, laws::specs::Ladder::unless))]
pub fn graph_check(t: &[u64]) -> Answer<()>
    ensures { result ≡ graph_check t.now }
{
    if !formed::system_formed(t, true) {
        return Err(Refusal::BadState);
    }
    if sizes::GRAPHS <= words::graph_count(t) {
        return Err(Refusal::TableFull);
    }
    Ok(())
}

// A channel of few kinds, that holds no more than a queue has room for.
#[tactic(auto, using(crate::proofs::SystemLaws::words_of), unfolding(crate::specs::Systems::channel_check, laws::specs::Ladder::unless))]
pub fn channel_check(t: &[u64], kinds: Kinds, capacity: ChannelCapacity) -> Answer<()>
    ensures { result ≡ channel_check t.now kinds capacity }
{
    if !formed::system_formed(t, true) {
        return Err(Refusal::BadState);
    }
    if graph_tables::sizes::MESSAGE < kinds.count {
        return Err(Refusal::TableFull);
    }
    if !ceiling::has_room(kinds.count, capacity) {
        return Err(Refusal::ChannelTooLarge);
    }
    if sizes::CHANNELS <= words::channel_count(t) {
        return Err(Refusal::TableFull);
    }
    Ok(())
}

// 32, then 17 for a graph that is not there.
#[tactic(auto, using(crate::proofs::SystemLaws::words_of), unfolding(crate::specs::Graphs::member_check, laws::specs::Ladder::unless))]
pub fn member_check(t: &[u64], g: u32) -> Answer<()>
    ensures { result ≡ member_check t.now g }
{
    if !formed::system_formed(t, true) {
        return Err(Refusal::BadState);
    }
    if words::graph_count(t) <= g as usize {
        return Err(Refusal::MissingPg);
    }
    Ok(())
}

// 32, 17, then 30 for a channel that is not there.
#[tactic(auto, unfolding(crate::specs::Messages::known_check, laws::specs::Ladder::unless))]
pub fn known_check(t: &[u64], g: u32, q: u32) -> Answer<()>
    ensures { result ≡ known_check t.now g q }
{
    member_check(t, g)?;
    if words::channel_count(t) <= q as usize {
        return Err(Refusal::MissingChannel);
    }
    Ok(())
}

// A send: then 5.
#[tactic(auto, unfolding(crate::specs::Messages::send_check_on))]
pub fn send_check<'a>(
    t: &[u64],
    g: u32,
    q: u32,
    w: &'a [u64],
    x: &'a [u64],
    y: &'a [u64],
    z: &'a [u64],
    count: usize,
) -> Answer<()>
    ensures { result ≡ send_check_on t.now g q (chosen w.now x.now y.now z.now) count }
{
    known_check(t, g, q)?;
    messages::sent_check(
        t,
        q as usize,
        words::graph_at(t, g as usize),
        w,
        x,
        y,
        z,
        count,
    )
}

// A receive: then 5.
#[tactic(auto, unfolding(crate::specs::Messages::receive_check_on))]
pub fn receive_check(t: &[u64], g: u32, q: u32, vars: Vars) -> Answer<()>
    ensures { result ≡ receive_check_on t.now g q vars }
{
    known_check(t, g, q)?;
    messages::received_check(t, q as usize, words::graph_at(t, g as usize), vars)
}

// A channel of a system that can be run.
#[tactic(auto, using(crate::proofs::SystemLaws::words_of), unfolding(crate::specs::Systems::read_check, laws::specs::Ladder::unless))]
pub fn read_check(t: &[u64], q: u32) -> Answer<()>
    ensures { result ≡ read_check t.now q }
{
    if !formed::system_formed(t, false) {
        return Err(Refusal::BadState);
    }
    if words::channel_count(t) <= q as usize {
        return Err(Refusal::MissingChannel);
    }
    Ok(())
}
