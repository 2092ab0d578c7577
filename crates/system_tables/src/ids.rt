// The numbers that name a system's parts: of a graph's parts with the graph's own. What a channel has, and what an action
// does with one.
use graph_tables::ids;

#[derive(Clone, Copy)]
pub struct PgId(pub u32);

#[derive(Clone, Copy)]
pub struct Channel(pub u32);

#[derive(Clone, Copy)]
pub struct Action(pub PgId, pub ids::Action);

#[derive(Clone, Copy)]
pub struct Location(pub PgId, pub ids::Location);

#[derive(Clone, Copy)]
pub struct Var(pub PgId, pub ids::Var);

#[derive(Clone, Copy)]
pub struct Clock(pub PgId, pub ids::Clock);

#[derive(Clone, Copy)]
pub enum Message {
    Send,
    Receive,
    ProbeEmptyQueue,
    ProbeFullQueue,
}

#[derive(Clone, Copy)]
pub enum ChannelCapacity {
    Bounded(u32),
    Unbounded,
    Sink,
}

// What an action is to the system: a plain one, or a message on a channel. As Option<(Message, Channel)> it was tried: two steps of
// `message_says` (proofs/CommunicationLaws.antt) didn't close, since `cc` doesn't read the parts of a pair.
#[derive(Clone, Copy)]
pub enum Communication {
    Plain,
    On(Message, Channel),
}
