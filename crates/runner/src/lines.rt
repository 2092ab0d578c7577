// Each line of standard input is answered by the public call that it names.
use crate::system;
use channel_system::answers::WaitError;
use channel_system::{readers, run};
use graph_tables::ids;
use graph_tables::refusals::Refusal;
use graph_text::faults::Fault;
use graph_text::lines::Line;
use graph_text::lists;
use graph_text::replies::Reply;
use std::io;
use system_tables::ids::Action;
use text::lines::Reader;
use text::rows;

// The longest line, without its end.
const LONGEST: usize = 64;

// What a line is read into: one byte more, so that a line that is too long shows by its length.
pub const ROOM: usize = 65;

// Room for the longest answer.
const ANSWER: usize = 32;

// D
fn wait(line: Line, t: &[u64], s: &mut [u64]) -> Result<(), Fault> {
    run::wait(t, s, line.last_number()?).map_err(|error| match error {
        WaitError::Invariant(_) => Fault::Refused(Refusal::Invariant),
        WaitError::Refused(r) => Fault::Refused(r),
    })
}

// A P: the graph's number is 0, so the word of a post is the location's number.
fn step(mut line: Line, t: &[u64], s: &mut [u64]) -> Result<(), Fault> {
    let a = line.read(lists::read_action)?;
    let post = line.last_number()?;
    let action = Action(system::GRAPH, ids::Action(a));
    run::transition(t, s, system::GRAPH, action, &[u64::from(post)], 0)?;
    Ok(())
}

fn answer(mut line: Line, t: &[u64], s: &mut [u64], out: &mut Reply) -> Result<(), Fault> {
    match line.next() {
        b"w" => wait(line, t, s)?,
        b"t" => step(line, t, s)?,
        _ => return Err(Fault::Bad),
    }
    out.ok();
    Ok(())
}

// Writes the answer to a line.
fn tell(rt: &impl Print, line: &[u8], length: usize, t: &[u64], s: &mut [u64]) -> io::Result<()> {
    let mut bytes = [0u8; ANSWER];
    let mut out = Reply::new(&mut bytes);
    let told = if LONGEST < length {
        Err(Fault::Bad)
    } else {
        answer(Line::new(rows::part(line, length)), t, s, &mut out)
    };
    out.tell(told);
    rt.write_all(out.written())
}

// The turns are counted, as in reading.
pub fn answer_all(
    rt: &(impl Input + Print),
    line: &mut [u8],
    t: &[u64],
    s: &mut [u64],
) -> io::Result<()> {
    let mut from = rt.reader();
    let mut reader = Reader::new();
    for _ in 0..u64::MAX {
        let Some(length) = reader.read_line(&mut from, line)? else {
            return Ok(());
        };
        tell(rt, line, length, t, s)?;
    }
    Ok(())
}

fn put_time(out: &mut Reply, t: &[u64], s: &[u64]) -> Result<(), Fault> {
    let n = readers::time(t, s)?;
    out.put_all(b"time");
    out.put_next_number(n);
    out.end();
    Ok(())
}

// Writes the time of the system.
pub fn tell_time(rt: &impl Print, t: &[u64], s: &[u64]) -> io::Result<()> {
    let mut bytes = [0u8; ANSWER];
    let mut out = Reply::new(&mut bytes);
    let told = put_time(&mut out, t, s);
    out.tell(told);
    rt.write_all(out.written())
}
