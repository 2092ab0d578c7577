// What a channel asks of a communication: of one that is stepped, and of one that is listed. How many slots of its queue are taken, how
// wide a message is and the capacity decide.
#![tactic(auto, unfolding(laws::specs::Ladder::unless, crate::specs::Channels::send_test, crate::specs::Channels::receive_test, crate::specs::Channels::empty_test, crate::specs::Channels::full_test, crate::specs::Channels::list_test))]

ghost use Rattle.std.specs.Prelude.{◌≡◌, ◌≤◌, ◌<◌};
ghost use Rattle.graph_tables.specs.Sizes.{message_room, word32};
ghost use Rattle.system_tables.specs.declared.ids.ChannelCapacity.TheVariants.{Bounded, Unbounded};
ghost use Rattle.channel_system.specs.Channels.{handshake, send_test, receive_test, empty_test, reached, full_test, step_test, list_test};
ghost use Rattle.channel_system.specs.Channels.{send_listed, receive_listed, empty_listed, full_listed};

use graph_tables::answers::Answer;
use graph_tables::refusals::Refusal;
use queues::inner::ring;
use queues::layout;
use system_tables::ids::{ChannelCapacity, Message};

// A queue of capacity 0.
fn handshakes(c: ChannelCapacity) -> bool
    ensures { result ≡ handshake c }
{
    match c {
        ChannelCapacity::Bounded(n) => n == 0,
        ChannelCapacity::Unbounded | ChannelCapacity::Sink => false,
    }
}

// ---- A step.
fn bounded(stored: usize, n: u32) -> Answer<()>
    ensures { result ≡ send_test stored 0 (Bounded n) }
{
    if stored < n as usize {
        return Ok(());
    }
    Err(Refusal::OutOfCapacity)
}

fn roomy(stored: usize, width: usize) -> Answer<()>
    requires { (stored < word32) × (width ≤ message_room) }
    ensures { result ≡ send_test stored width Unbounded }
{
    if stored + ring::slots_for(width) <= layout::ROOM {
        return Ok(());
    }
    Err(Refusal::NoRoom)
}

fn send_test(stored: usize, width: usize, c: ChannelCapacity) -> Answer<()>
    requires { (stored < word32) × (width ≤ message_room) }
    ensures { result ≡ send_test stored width c }
{
    match c {
        ChannelCapacity::Bounded(n) => bounded(stored, n),
        ChannelCapacity::Unbounded => roomy(stored, width),
        ChannelCapacity::Sink => Ok(()),
    }
}

fn receive_test(stored: usize) -> Answer<()>
    ensures { result ≡ receive_test stored }
{
    if 0 < stored {
        return Ok(());
    }
    Err(Refusal::Empty)
}

fn empty_test(stored: usize, c: ChannelCapacity) -> Answer<()>
    ensures { result ≡ empty_test stored c }
{
    if handshakes(c) {
        return Err(Refusal::ProbingHandshakeChannel);
    }
    if stored == 0 {
        return Ok(());
    }
    Err(Refusal::NotEmpty)
}

fn reaches(stored: usize, n: u32) -> Answer<()>
    ensures { result ≡ reached stored (Bounded n) }
{
    if n as usize <= stored {
        return Ok(());
    }
    Err(Refusal::NotFull)
}

fn full_test(stored: usize, c: ChannelCapacity) -> Answer<()>
    ensures { result ≡ full_test stored c }
{
    if handshakes(c) {
        return Err(Refusal::ProbingHandshakeChannel);
    }
    match c {
        ChannelCapacity::Bounded(n) => reaches(stored, n),
        ChannelCapacity::Unbounded => Err(Refusal::ProbingInfiniteQueue),
        ChannelCapacity::Sink => Err(Refusal::NotFull),
    }
}

// Whether a communication may be stepped, or the channel's refusal.
pub fn step_test(m: Message, stored: usize, width: usize, c: ChannelCapacity) -> Answer<()>
    requires { (stored < word32) × (width ≤ message_room) }
    ensures { result ≡ step_test m stored width c }
{
    match m {
        Message::Send => send_test(stored, width, c),
        Message::Receive => receive_test(stored),
        Message::ProbeEmptyQueue => empty_test(stored, c),
        Message::ProbeFullQueue => full_test(stored, c),
    }
}

// ---- The listing.
fn send_listed(stored: usize, c: ChannelCapacity) -> bool
    ensures { result ≡ send_listed stored c }
{
    match c {
        ChannelCapacity::Bounded(n) => stored < n as usize,
        ChannelCapacity::Unbounded | ChannelCapacity::Sink => true,
    }
}

fn receive_listed(stored: usize, c: ChannelCapacity) -> bool
    ensures { result ≡ receive_listed stored c }
{
    match c {
        ChannelCapacity::Bounded(_) | ChannelCapacity::Unbounded => 0 < stored,
        ChannelCapacity::Sink => false,
    }
}

fn empty_listed(stored: usize, c: ChannelCapacity) -> bool
    ensures { result ≡ empty_listed stored c }
{
    match c {
        ChannelCapacity::Bounded(_) | ChannelCapacity::Unbounded => stored == 0,
        ChannelCapacity::Sink => true,
    }
}

fn full_listed(stored: usize, c: ChannelCapacity) -> bool
    ensures { result ≡ full_listed stored c }
{
    match c {
        ChannelCapacity::Bounded(n) => stored == n as usize,
        ChannelCapacity::Unbounded | ChannelCapacity::Sink => false,
    }
}

// Whether a communication is listed. (A match has each test beside its message, which a table of closures would not say more plainly.)
pub fn list_test(m: Message, stored: usize, c: ChannelCapacity) -> bool
    ensures { result ≡ list_test m stored c }
{
    match m {
        Message::Send => send_listed(stored, c),
        Message::Receive => receive_listed(stored, c),
        Message::ProbeEmptyQueue => empty_listed(stored, c),
        Message::ProbeFullQueue => full_listed(stored, c),
    }
}
