// Lines that add a transition, behind their verb.
use crate::builders::Builder;
use graph_tables::ids::{Action, Location};
use graph_text::faults::Fault;
use graph_text::lines::Line;
use graph_text::lists::{ITEMS, read_action};
use graph_text::{guards, limits};

// L A L GUARD, L A L GUARD LIMITS
pub fn transition<B: Builder>(mut line: Line, b: &mut B) -> Result<(), Fault> {
    let pre = Location(line.number()?);
    let action = Action(line.read(read_action)?);
    let post = Location(line.number()?);
    let mut words = [0u64; ITEMS];
    let guard = guards::read(&mut line, &mut words)?;
    if line.ended() {
        return Ok(b.add_transition(pre, action, post, guard)?);
    }
    let limits = limits::read_last(line)?;
    Ok(b.add_timed_transition(pre, action, post, guard, limits)?)
}

// L L GUARD, L L GUARD LIMITS
pub fn auto<B: Builder>(mut line: Line, b: &mut B) -> Result<(), Fault> {
    let pre = Location(line.number()?);
    let post = Location(line.number()?);
    let mut words = [0u64; ITEMS];
    let guard = guards::read(&mut line, &mut words)?;
    if line.ended() {
        return Ok(b.add_autonomous_transition(pre, post, guard)?);
    }
    let limits = limits::read_last(line)?;
    Ok(b.add_autonomous_timed_transition(pre, post, guard, limits)?)
}
