// Limits, as lines have them. A list may be longer than a call takes: its count is handed over, and what has no room is left
// out.
use crate::faults::Fault;
use crate::lines::Line;
use graph_tables::handed::{Limit, Limits};
use graph_tables::ids::Clock;
use graph_tables::sizes;
use text::bounds;
use time::TimeRange;

// One more than the most limits of a list: the turn after the last reads what closes it.
const LIMITS: usize = 17;

// C LO HI
fn read_limit(line: &mut Line) -> Result<Limit, Fault> {
    let clock = Clock(line.number()?);
    let lower = line.read(bounds::read_limit)?;
    let upper = line.read(bounds::read_limit)?;
    Ok(Limit {
        clock,
        range: TimeRange::new(lower, upper),
    })
}

// C LO HI .. ] (How many there are is handed over, so the loop counts them.)
fn read_limits(line: &mut Line) -> Result<Limits, Fault> {
    let mut list = Limits::none();
    for count in 0..LIMITS {
        if line.took(b"]") {
            list.count = count;
            return Ok(list);
        }
        let limit = read_limit(line)?;
        if count < sizes::LIMITS {
            list.limits[count] = limit;
        }
    }
    Err(Fault::Bad)
}

// LIMITS, and nothing behind them.
pub fn read_last(mut line: Line) -> Result<Limits, Fault> {
    line.word(b"[")?;
    let limits = read_limits(&mut line)?;
    line.end()?;
    Ok(limits)
}
