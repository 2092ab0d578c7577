// What calls on a system answer that a graph's do not.
use crate::handed::Kinds;
use graph_tables::answers::Answer;
use system_tables::ids::ChannelCapacity;

// The kinds of a channel's messages and its capacity, if they are told.
#[derive(Clone, Copy)]
pub struct ChannelRead {
    pub answer: Answer<()>,
    pub kinds: Kinds,
    pub capacity: ChannelCapacity,
}
