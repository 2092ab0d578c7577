// What a call answers, as a number and as words at the front of a lent slice. A refusal writes none, but for the graph of a wait.
ghost use Rattle.std.specs.Prelude.{◌≡◌, ◌+◌, ◌<◌, ℕ, List};
ghost use Rattle.system_builder.specs.Systems.{handed_kind};
ghost use Rattle.graph_tables.specs.Sizes.{message_room};
ghost use Rattle.program_graph.specs.Outcomes.{accepts, values_said};
ghost use Rattle.c_words.specs.Told.{answer_told, number_said, truth_said, type_said, value_said, queued_said, entry_said, graph_entry_said};
ghost use Rattle.c_words.specs.Told.{done_told, waited_told, done_saying, message_said, kind_said, channel_said, event_said};
ghost use Rattle.c_words.specs.Told.{sort_said, bound_said, channel_told, Says, put};

use crate::inner::values;
use channel_system::answers::{Event, WaitError};
use grammar::inner::slots;
use grammar::values::{Type, Val};
use graph_tables::answers::{Answer, Entry};
use graph_tables::handed::Message;
use system_builder::answers::ChannelRead;
use system_builder::handed::Kinds;
use system_tables::ids::{ChannelCapacity, Communication, PgId};
use system_tables::inner::writers;
use system_tables::layout;

// Numbers behind the rules' own: a lent result slice is too short, an argument is nothing that it could be. They are numbers and
// no enum, since they are what C is told (include/njunnemar.h).
pub const SHORT: u32 = 35;

pub const MALFORMED: u32 = 36;

// How many words each result has.
pub const NUMBER: usize = 1;

// A kind and a payload.
pub const VALUE: usize = 2;

// Whether there is one, and the value.
pub const QUEUED: usize = 3;

// Whether there is one, action, process, post.
pub const ENTRY: usize = 4;

// Whether there is one, graph, action, process, post.
pub const GRAPH_ENTRY: usize = 5;

// A count and four numbers.
pub const PLACES: usize = 5;

// Width, four kinds, sort of capacity, bound.
pub const CHANNEL: usize = 7;

// A count and four values.
pub const MESSAGE: usize = 9;

// Graph, kind, channel, and a message.
pub const EVENT: usize = 12;

pub fn done(answer: Answer<()>) -> u32
    ensures { result ≡ (done_told answer).number }
{
    match answer {
        Ok(()) => 0,
        Err(r) => r.number(),
    }
}

// What a call answers where it accepts, and the words that tell it.
pub trait Tell {
    ghost said: { Self → List ℕ };

    fn tell(self, out: &mut [u64])
        ensures { out.new ≡ put (said self) out.old };
}

pub fn told<T: Tell>(answer: Answer<T>, out: &mut [u64]) -> u32
    ensures { Says result out.new out.old (answer_told T.said answer) }
{
    match answer {
        Ok(x) => {
            x.tell(out);
            0
        }
        Err(r) => r.number(),
    }
}

// The number of a new part, and a time.
impl Tell for u32 {
    ghost said = { number_said };

    fn tell(self, out: &mut [u64]) {
        values::put_all(out, &[self as u64]);
    }
}

// A clock's time, as a word.
impl Tell for u64 {
    ghost said = { number_said };

    fn tell(self, out: &mut [u64]) {
        values::put_all(out, &[self]);
    }
}

// A length.
impl Tell for usize {
    ghost said = { number_said };

    fn tell(self, out: &mut [u64]) {
        values::put_all(out, &[self as u64]);
    }
}

impl Tell for bool {
    ghost said = { truth_said };

    fn tell(self, out: &mut [u64]) {
        values::put_all(out, &[self as u64]);
    }
}

impl Tell for Type {
    ghost said = { type_said };

    fn tell(self, out: &mut [u64]) {
        values::put_all(out, &[self.word()]);
    }
}

impl Tell for Val {
    ghost said = { value_said };

    fn tell(self, out: &mut [u64]) {
        values::put_all(out, &[self.kind().word(), slots::payload_of(self)]);
    }
}

impl Tell for Option<Val> {
    ghost said = { queued_said };

    fn tell(self, out: &mut [u64]) {
        match self {
            Some(x) => values::put_all(out, &[1, x.kind().word(), slots::payload_of(x)]),
            None => values::put_all(out, &[0; QUEUED]),
        }
    }
}

impl Tell for Option<Entry> {
    ghost said = { entry_said };

    fn tell(self, out: &mut [u64]) {
        match self {
            Some(e) => values::put_all(
                out,
                &[1, e.action.0 as u64, e.process as u64, e.post as u64],
            ),
            None => values::put_all(out, &[0; ENTRY]),
        }
    }
}

impl Tell for Option<(PgId, Entry)> {
    ghost said = { graph_entry_said };

    fn tell(self, out: &mut [u64]) {
        match self {
            Some((g, e)) => values::put_all(
                out,
                &[
                    1,
                    g.0 as u64,
                    e.action.0 as u64,
                    e.process as u64,
                    e.post as u64,
                ],
            ),
            None => values::put_all(out, &[0; GRAPH_ENTRY]),
        }
    }
}

// The graph that stands against a wait is told where the wait is refused with 9.
pub fn waited(answer: Result<(), WaitError>, out: &mut [u64]) -> u32
    ensures { Says result out.new out.old (waited_told answer) }
{
    match answer {
        Ok(()) => 0,
        Err(WaitError::Invariant(g)) => {
            values::put_all(out, &[g.0 as u64]);
            graph_tables::refusals::Refusal::Invariant.number()
        }
        Err(WaitError::Refused(r)) => r.number(),
    }
}

// How many values a message has, then the kind and the payload of each of its four places.
impl Tell for Message {
    ghost said = { message_said };

    fn tell(self, out: &mut [u64]) {
        let [a, b, c, d] = self.values;
        values::put_all(
            out,
            &[
                self.count as u64,
                a.value.kind().word(),
                slots::payload_of(a.value),
                b.value.kind().word(),
                slots::payload_of(b.value),
                c.value.kind().word(),
                slots::payload_of(c.value),
                d.value.kind().word(),
                slots::payload_of(d.value),
            ],
        );
    }
}

// A send: its clause names the answer and the message apart, as the rules do.
pub fn message(said: Answer<Message>, out: &mut [u64]) -> u32
    ensures { Says result out.new out.old (done_saying (accepts said) (message_said (values_said said))) }
{
    match said {
        Ok(m) => {
            m.tell(out);
            0
        }
        Err(r) => r.number(),
    }
}

fn communication(on: Communication) -> u64
    ensures { result ≡ kind_said on }
{
    match on {
        Communication::Plain => 0,
        Communication::On(kind, _) => writers::message_word(kind),
    }
}

fn channel_of(on: Communication) -> u64
    ensures { result ≡ channel_said on }
{
    match on {
        Communication::Plain => 0,
        Communication::On(_, q) => q.0 as u64,
    }
}

// The graph, the communication, the message.
impl Tell for Event {
    ghost said = { event_said };

    fn tell(self, out: &mut [u64]) {
        let [a, b, c, d] = self.values.values;
        values::put_all(
            out,
            &[
                self.pg_id.0 as u64,
                communication(self.on),
                channel_of(self.on),
                self.values.count as u64,
                a.value.kind().word(),
                slots::payload_of(a.value),
                b.value.kind().word(),
                slots::payload_of(b.value),
                c.value.kind().word(),
                slots::payload_of(c.value),
                d.value.kind().word(),
                slots::payload_of(d.value),
            ],
        );
    }
}

// The numbers of C (include/njunnemar.h).
fn sort_of(capacity: ChannelCapacity) -> u64
    ensures { result ≡ sort_said capacity }
{
    match capacity {
        ChannelCapacity::Bounded(_) => layout::BOUNDED,
        ChannelCapacity::Unbounded => layout::UNBOUNDED,
        ChannelCapacity::Sink => layout::SINK,
    }
}

fn bound_of(capacity: ChannelCapacity) -> u64
    ensures { result ≡ bound_said capacity }
{
    match capacity {
        ChannelCapacity::Bounded(n) => n as u64,
        ChannelCapacity::Unbounded => 0,
        ChannelCapacity::Sink => 0,
    }
}

fn kind_at(kinds: Kinds, i: usize) -> u64
    requires { i < message_room }
    ensures { result ≡ handed_kind kinds i }
{
    let slots = kinds.kinds;
    let slot = slots[i];
    let kind = slot.kind;
    kind.word()
}

pub fn channel(read: ChannelRead, out: &mut [u64]) -> u32
    ensures { Says result out.new out.old (channel_told read) }
{
    let kinds = read.kinds;
    let capacity = read.capacity;
    match read.answer {
        Ok(()) => {
            values::put_all(
                out,
                &[
                    kinds.count as u64,
                    kind_at(kinds, 0),
                    kind_at(kinds, 1),
                    kind_at(kinds, 2),
                    kind_at(kinds, 3),
                    sort_of(capacity),
                    bound_of(capacity),
                ],
            );
            0
        }
        Err(r) => r.number(),
    }
}
