// Capacities of channels: `qN` bounded, `q*` unbounded, `sink`.
use graph_text::replies::Reply;
use system_tables::ids::ChannelCapacity;
use text::numbers;

pub fn read_capacity(token: &[u8]) -> Option<ChannelCapacity> {
    match token {
        b"sink" => Some(ChannelCapacity::Sink),
        b"q*" => Some(ChannelCapacity::Unbounded),
        [b'q', digits @ ..] => numbers::read_small(digits).map(ChannelCapacity::Bounded),
        _ => None,
    }
}

pub fn put_capacity(out: &mut Reply, capacity: ChannelCapacity) {
    match capacity {
        ChannelCapacity::Bounded(n) => {
            out.put(b'q');
            out.put_number(u64::from(n));
        }
        ChannelCapacity::Unbounded => out.put_all(b"q*"),
        ChannelCapacity::Sink => out.put_all(b"sink"),
    }
}
