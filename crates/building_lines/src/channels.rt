// Lines on the channels of a system.
use crate::capacities;
use grammar::values;
use grammar::values::Type;
use graph_text::faults::Fault;
use graph_text::lines::Line;
use graph_text::replies::Reply;
use system_builder;
use system_builder::handed::{Kind, Kinds};
use system_tables::ids::{Channel, ChannelCapacity};
use text::rows;

// The most kinds of a line.
const KINDS: usize = 6;

fn kind(word: u64) -> Kind {
    if word == values::BOOLEAN {
        return Kind {
            kind: Type::Boolean,
        };
    }
    Kind {
        kind: Type::Integer,
    }
}

// KINDS. A list may be longer than the call takes: its count is handed over, and what has no room is left out.
fn read_kinds(token: &[u8]) -> Option<Kinds> {
    let mut words = [0u64; KINDS];
    let count = text::lists::read_kinds(token, &mut words)?;
    let [a, b, c, d, ..] = words;
    Some(Kinds {
        kinds: [kind(a), kind(b), kind(c), kind(d)],
        count,
    })
}

// s channel KINDS CAP
pub fn channel(mut line: Line, t: &mut [u64]) -> Result<u32, Fault> {
    let kinds = line.read(read_kinds)?;
    let capacity = line.read(capacities::read_capacity)?;
    line.end()?;
    Ok(system_builder::new_channel(t, kinds, capacity)?)
}

fn put_kind(out: &mut Reply, kind: Type) {
    match kind {
        Type::Boolean => out.put(b'b'),
        Type::Integer => out.put(b'i'),
    }
}

// A letter for each kind; `-` for none.
fn put_kinds(out: &mut Reply, list: Kinds) {
    if list.count == 0 {
        return out.put(b'-');
    }
    for item in rows::part(&list.kinds, list.count) {
        put_kind(out, item.kind);
    }
}

// Its kinds and its capacity, as they stand in `s channel`.
fn put_channel(out: &mut Reply, kinds: Kinds, capacity: ChannelCapacity) {
    out.put_all(b"ok ");
    put_kinds(out, kinds);
    out.put(b' ');
    capacities::put_capacity(out, capacity);
    out.end();
}

// s capacity Q
pub fn capacity(line: Line, t: &[u64], out: &mut Reply) -> Result<(), Fault> {
    let read = system_builder::channel(t, Channel(line.last_number()?));
    read.answer?;
    put_channel(out, read.kinds, read.capacity);
    Ok(())
}
