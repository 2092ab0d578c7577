// How much a queue holds.
ghost use Rattle.std.specs.Prelude.{◌≡◌, ◌+◌, ◌*◌, ◌≤◌, ◌<◌};
ghost use Rattle.graph_tables.specs.Sizes.{message_room, word32};
ghost use Rattle.system_tables.specs.Ceiling.{rounded_up, filled_to, ceiling, has_room};

use crate::ids::ChannelCapacity;
use queues::inner::ring;
use queues::layout;

// n divided by d, rounded up.
fn rounded_up(n: u64, d: u64) -> u64
    requires { (n < word32) × (0 < d) × (d ≤ message_room) }
    ensures { (result ≡ rounded_up n d) × (d * result ≤ n + d) }
{
    (n + (d - 1)) / d
}

fn filled_to(slots: u64, c: ChannelCapacity) -> u64
    requires { (0 < slots) × (slots ≤ message_room) }
    ensures { result ≡ filled_to slots c }
{
    match c {
        ChannelCapacity::Bounded(n) => slots * rounded_up(n as u64, slots),
        ChannelCapacity::Unbounded => layout::ROOM as u64,
        ChannelCapacity::Sink => 0,
    }
}

// The most slots that are ever taken.
pub fn ceiling_of(width: usize, c: ChannelCapacity) -> u64
    requires { width ≤ message_room }
    ensures { result ≡ ceiling width c }
{
    let slots = ring::slots_for(width) as u64;
    if slots == 0 {
        return 0;
    }
    filled_to(slots, c)
}

// Whether there is room for as much: else 31.
pub fn has_room(width: usize, c: ChannelCapacity) -> bool
    requires { width ≤ message_room }
    ensures { result ≡ has_room width c }
{
    ceiling_of(width, c) <= layout::ROOM as u64
}
