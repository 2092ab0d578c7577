// Lines that build a graph, from their verb on: behind `g` for one alone, behind `s G` for one of a system.
use crate::builders::Builder;
use crate::transitions;
use graph_tables::ids::{Action, Clock, Location, Var};
use graph_text::faults::Fault;
use graph_text::limits;
use graph_text::lines::Line;
use graph_text::lists::{ITEMS, read_action};
use graph_text::replies::Reply;
use text::values;

// VALUE
fn var<B: Builder>(mut line: Line, b: &mut B) -> Result<u32, Fault> {
    let value = line.read(values::read_value)?;
    line.end()?;
    Ok(b.new_var(value)?)
}

// A C
fn reset<B: Builder>(mut line: Line, b: &mut B) -> Result<(), Fault> {
    let action = Action(line.read(read_action)?);
    let clock = Clock(line.last_number()?);
    Ok(b.add_reset(action, clock)?)
}

// A V EXPR
fn effect<B: Builder>(mut line: Line, b: &mut B) -> Result<(), Fault> {
    let action = Action(line.read(read_action)?);
    let var = Var(line.number()?);
    let mut words = [0u64; ITEMS];
    let items = line.expression(&mut words)?;
    line.end()?;
    Ok(b.add_effect(action, var, items)?)
}

// LIMITS, or nothing
fn location<B: Builder>(line: Line, b: &mut B) -> Result<u32, Fault> {
    if line.ended() {
        return Ok(b.new_location()?);
    }
    Ok(b.new_timed_location(limits::read_last(line)?)?)
}

// LIMITS, or nothing
fn initial<B: Builder>(line: Line, b: &mut B) -> Result<u32, Fault> {
    if line.ended() {
        return Ok(b.new_initial_location()?);
    }
    Ok(b.new_initial_timed_location(limits::read_last(line)?)?)
}

// Lines that place a part give its number.
fn placed<B: Builder>(verb: &[u8], line: Line, b: &mut B) -> Result<u32, Fault> {
    match verb {
        b"var" => var(line, b),
        b"location" => location(line, b),
        b"initial" => initial(line, b),
        b"clock" => {
            line.end()?;
            Ok(b.new_clock()?)
        }
        b"action" => {
            line.end()?;
            Ok(b.new_action()?)
        }
        _ => Err(Fault::Bad),
    }
}

pub fn answer<B: Builder>(
    verb: &[u8],
    line: Line,
    b: &mut B,
    out: &mut Reply,
) -> Result<(), Fault> {
    match verb {
        b"process" => b.new_process(Location(line.last_number()?))?,
        b"reset" => reset(line, b)?,
        b"effect" => effect(line, b)?,
        b"transition" => transitions::transition(line, b)?,
        b"auto" => transitions::auto(line, b)?,
        b"kind" => {
            out.kind(b.var_type(Var(line.last_number()?))?);
            return Ok(());
        }
        _ => {
            out.ok_number(placed(verb, line, b)?);
            return Ok(());
        }
    }
    out.ok();
    Ok(())
}
