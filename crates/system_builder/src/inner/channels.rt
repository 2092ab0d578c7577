// The row of a channel, written and read.
ghost use Rattle.std.specs.Prelude.{◌≡◌, ◌≤◌, ◌<◌};
ghost use Rattle.graph_tables.specs.Sizes.{message_room};
ghost use Rattle.system_tables.specs.Sizes.{channel_room};
ghost use Rattle.system_tables.specs.Words.{SystemWords};
ghost use Rattle.system_builder.specs.Systems.{with_kinds, with_row, kind_in, kinds_in};

use crate::handed::{Kind, Kinds};
use grammar::values;
use grammar::values::Type;
use system_tables::ids::ChannelCapacity;
use system_tables::inner::{words, writers};

// The kinds of a message. The index says where each is put, so the loop is over it.
fn put_kinds(t: &mut [u64], q: usize, kinds: Kinds)
    requires { SystemWords t.old × (q < channel_room) × (kinds.count ≤ message_room) }
    ensures { t.new ≡ with_kinds t.old q kinds kinds.count }
{
    for e in 0..kinds.count {
        let slot = kinds.kinds[e];
        let kind = slot.kind;
        let word = kind.word();
        writers::set_channel_kind(t, q, e, word);
    }
}

// The whole row.
pub fn put_channel(t: &mut [u64], q: usize, kinds: Kinds, capacity: ChannelCapacity)
    requires { SystemWords t.old × (q < channel_room) × (kinds.count ≤ message_room) }
    ensures { t.new ≡ with_row t.old q kinds capacity }
{
    put_kinds(t, q, kinds);
    writers::set_width(t, q, kinds.count);
    writers::set_capacity(t, q, capacity);
}

// The kind of value e; past the width the word is not read.
#[tactic(auto, unfolding(crate::specs::Systems::kind_in))]
fn kind_at(t: &[u64], q: usize, e: usize) -> Kind
    requires { SystemWords t.now × (q < channel_room) × (e < message_room) }
    ensures { result ≡ kind_in t.now q e }
{
    if words::width_of(t, q) <= e {
        return Kind {
            kind: Type::Boolean,
        };
    }
    if words::channel_kind(t, q, e) == values::BOOLEAN {
        return Kind {
            kind: Type::Boolean,
        };
    }
    Kind {
        kind: Type::Integer,
    }
}

// The kinds of a channel's messages.
pub fn kinds_at(t: &[u64], q: usize) -> Kinds
    requires { SystemWords t.now × (q < channel_room) }
    ensures { result ≡ kinds_in t.now q }
{
    let kinds = [
        kind_at(t, q, 0),
        kind_at(t, q, 1),
        kind_at(t, q, 2),
        kind_at(t, q, 3),
    ];
    Kinds {
        kinds,
        count: words::width_of(t, q),
    }
}
