// Lines on the state of a system, whose table is lent beside it.
use crate::{answers, replaying, showing, stepping};
use channel_system::{readers, run, transitions};
use graph_text::faults::Fault;
use graph_text::lines::Line;
use graph_text::replies::Reply;
use running_lines::answers::{listed, past_end};
use system_tables::ids::{Channel, PgId};

// Lines that ask for entry K of a part N, and change nothing.
fn of_part(
    verb: &[u8],
    mut line: Line,
    t: &[u64],
    s: &[u64],
    out: &mut Reply,
) -> Result<(), Fault> {
    let n = line.number()?;
    let k = line.last_number()? as usize;
    match verb {
        b"pg" => listed(out, transitions::possible_transitions_pg(t, s, PgId(n), k)?),
        b"solo" => listed(
            out,
            transitions::nosync_possible_transitions_pg(t, s, PgId(n), k)?,
        ),
        b"queue" => match readers::queue_value(t, s, Channel(n), k)? {
            Some(value) => out.ok_value(value),
            None => past_end(out),
        },
        _ => return Err(Fault::Bad),
    }
    Ok(())
}

// Lines that ask for the state, and change nothing.
fn asked(verb: &[u8], line: Line, t: &[u64], s: &[u64], out: &mut Reply) -> Result<(), Fault> {
    match verb {
        b"waiting" => {
            line.end()?;
            out.yes_or_no(run::is_waiting(t, s)?);
        }
        b"time" => {
            line.end()?;
            out.ok_number(readers::time(t, s)?);
        }
        b"show" => {
            line.end()?;
            showing::show(t, s, out)?;
        }
        b"can" => out.yes_or_no(run::can_wait(t, s, line.last_number()?)?),
        b"list" => {
            let k = line.last_number()?;
            answers::listed(out, transitions::possible_transitions(t, s, k as usize)?);
        }
        b"run" => {
            let run = readers::program_graph(t, s, PgId(line.last_number()?))?;
            answers::shown(out, &run);
        }
        _ => return of_part(verb, line, t, s, out),
    }
    Ok(())
}

fn answered(mut line: Line, t: &[u64], s: &mut [u64], out: &mut Reply) -> Result<(), Fault> {
    match line.next() {
        b"new" => {
            line.end()?;
            run::new_instance(t, s)?;
            out.ok();
            Ok(())
        }
        b"wait" => answers::waited(out, run::wait(t, s, line.last_number()?)),
        b"step" => stepping::step(line, t, s, out),
        b"replay" => replaying::replay(line, t, s, out),
        verb => asked(verb, line, t, s, out),
    }
}

// Every line behind `t`.
pub fn answer(line: Line, t: &[u64], s: &mut [u64], out: &mut Reply) {
    out.begin();
    let told = answered(line, t, s, out);
    out.tell(told);
}
