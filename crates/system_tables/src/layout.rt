// Where the words of a system's table stand: regions, rows, and what a row has.
// Counts.
pub const GRAPHS: usize = 0;

pub const CHANNELS: usize = 1;

// Regions: the first word of each.
pub const CHANNELS_START: usize = 2;

pub const MEMBERS_START: usize = 58;

// Rows: how many words each has.
pub const CHANNEL_SPAN: usize = 7;

pub const MEMBER_SPAN: usize = 46922;

// The row of a channel, behind its width: the kinds, the sort of its capacity, the bound.
pub const KINDS: usize = 1;

pub const SORT: usize = 5;

pub const CAPACITY: usize = 6;

// The row of a graph, behind the communications of its actions: the graph's own words.
pub const OWN: usize = 32;

// Sorts of capacity.
pub const BOUNDED: u64 = 0;

pub const UNBOUNDED: u64 = 1;

pub const SINK: u64 = 2;

// A communication is none, or a kind + COMMUNICATION_SPAN * channel.
pub const NO_COMMUNICATION: u64 = 0;

pub const SEND: u64 = 1;

pub const RECEIVE: u64 = 2;

pub const EMPTY: u64 = 3;

pub const FULL: u64 = 4;

pub const COMMUNICATION_SPAN: u64 = 256;
