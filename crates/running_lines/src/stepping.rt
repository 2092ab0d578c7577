// Lines that step the run: a plain action, a send, a receive.
use grammar::values::Slot;
use graph_tables::handed::Message;
use graph_tables::ids::Action;
use graph_text::faults::Fault;
use graph_text::lines::Line;
use graph_text::lists;
use program_graph::record::ProgramGraphRun;
use text::lists::List;
use text::{numbers, rows};

// The most values of a line.
const VALUES: usize = 6;

// An action and posts.
#[derive(Clone, Copy)]
struct Asked {
    action: Action,
    posts: List<u32, 8>,
}

impl Asked {
    // A POSTS
    fn read(line: &mut Line) -> Result<Asked, Fault> {
        Ok(Asked {
            action: Action(line.read(lists::read_action)?),
            posts: line.group(0, numbers::read_small)?,
        })
    }

    fn posts(&self) -> &[u32] {
        rows::part(&self.posts.items, self.posts.count)
    }
}

// A POSTS W
pub fn step(mut line: Line, t: &[u64], run: &mut ProgramGraphRun) -> Result<(), Fault> {
    let asked = Asked::read(&mut line)?;
    let word = line.last_wide()?;
    run.transition(t, asked.action, asked.posts(), word)?;
    Ok(())
}

// A POSTS W
pub fn send(mut line: Line, t: &[u64], run: &mut ProgramGraphRun) -> Result<Message, Fault> {
    let asked = Asked::read(&mut line)?;
    let word = line.last_wide()?;
    let message = run.send(t, asked.action, asked.posts(), word)?;
    Ok(message)
}

fn message(read: List<Slot, 16>) -> Message {
    let [a, b, c, d, ..] = read.items;
    Message {
        values: [a, b, c, d],
        count: read.count,
    }
}

// A POSTS VALUE..
pub fn receive(mut line: Line, t: &[u64], run: &mut ProgramGraphRun) -> Result<(), Fault> {
    let asked = Asked::read(&mut line)?;
    let read = line.values();
    line.end()?;
    if VALUES < read.count {
        return Err(Fault::Bad);
    }
    run.receive(t, asked.action, asked.posts(), message(read))?;
    Ok(())
}
