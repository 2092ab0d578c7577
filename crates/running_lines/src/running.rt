// Lines on the run.
use crate::{answers, showing, stepping};
use graph_tables::ids::{Clock, Var};
use graph_text::faults::Fault;
use graph_text::lines::Line;
use graph_text::replies::Reply;
use program_graph::inner::fresh;
use program_graph::record::ProgramGraphRun;

// A new run; where there is none, a run of no graph, on which each call is refused.
fn renew(t: &[u64], run: &mut ProgramGraphRun) -> Result<(), Fault> {
    *run = fresh::no_run();
    *run = ProgramGraphRun::new(t)?;
    Ok(())
}

fn wait(t: &[u64], run: &mut ProgramGraphRun, delta: u32) -> Result<(), Fault> {
    run.wait(t, delta)?;
    Ok(())
}

// Lines that ask, and change nothing.
fn asked(
    verb: &[u8],
    line: Line,
    t: &[u64],
    run: &ProgramGraphRun,
    out: &mut Reply,
) -> Result<(), Fault> {
    match verb {
        b"waiting" => {
            line.end()?;
            out.yes_or_no(run.is_waiting(t)?);
        }
        b"places" => {
            line.end()?;
            answers::states(out, run.current_states(t)?);
        }
        b"show" => {
            line.end()?;
            showing::show(t, run, out)?;
        }
        b"can" => out.yes_or_no(run.can_wait(t, line.last_number()?)?),
        b"list" => {
            let k = line.last_number()?;
            answers::listed(out, run.possible_transitions(t, k as usize)?);
        }
        b"solo" => {
            let k = line.last_number()?;
            answers::listed(out, run.nosync_possible_transitions(t, k as usize)?);
        }
        b"value" => out.ok_value(run.value(t, Var(line.last_number()?))?),
        b"clock" => out.ok_number(run.time(t, Clock(line.last_number()?))?),
        _ => return Err(Fault::Bad),
    }
    Ok(())
}

fn answered(
    mut line: Line,
    t: &[u64],
    run: &mut ProgramGraphRun,
    out: &mut Reply,
) -> Result<(), Fault> {
    match line.next() {
        b"new" => {
            line.end()?;
            renew(t, run)?;
        }
        b"step" => stepping::step(line, t, run)?,
        b"receive" => stepping::receive(line, t, run)?,
        b"wait" => wait(t, run, line.last_number()?)?,
        b"send" => {
            answers::sent(out, stepping::send(line, t, run)?);
            return Ok(());
        }
        verb => return asked(verb, line, t, run, out),
    }
    out.ok();
    Ok(())
}

// Every line behind `r`. The run is left as the call leaves it.
pub fn answer(line: Line, t: &[u64], run: &mut ProgramGraphRun, out: &mut Reply) {
    out.begin();
    let told = answered(line, t, run, out);
    out.tell(told);
}
