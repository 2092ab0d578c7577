// Lines that build a system: its channels, and its graphs by their numbers.
use crate::builders::OfSystem;
use crate::{building, channels, messages};
use graph_text::faults::Fault;
use graph_text::lines::Line;
use graph_text::replies::Reply;
use system_builder;
use system_builder::messages::{
    new_probe_empty_queue, new_probe_full_queue, new_receive, new_send,
};
use system_tables::ids::{Channel, PgId};
use text::numbers;

// Lines behind `s G`. What makes an action that communicates names the channel first.
fn on_graph(mut line: Line, t: &mut [u64], g: PgId, out: &mut Reply) -> Result<(), Fault> {
    let placed = match line.next() {
        b"send" => {
            let q = Channel(line.number()?);
            messages::send(
                line,
                |count, w, x, y, z| new_send(t, g, q, count, w, x, y, z),
            )?
        }
        b"receive" => {
            let q = Channel(line.number()?);
            messages::receive(line, |vars| new_receive(t, g, q, vars))?
        }
        b"empty" => new_probe_empty_queue(t, g, Channel(line.last_number()?))?,
        b"full" => new_probe_full_queue(t, g, Channel(line.last_number()?))?,
        verb => return building::answer(verb, line, &mut OfSystem { table: t, graph: g }, out),
    };
    out.ok_number(placed);
    Ok(())
}

fn answered(mut line: Line, t: &mut [u64], out: &mut Reply) -> Result<(), Fault> {
    match line.next() {
        b"channel" => out.ok_number(channels::channel(line, t)?),
        b"capacity" => channels::capacity(line, t, out)?,
        b"graph" => {
            line.end()?;
            out.ok_number(system_builder::new_program_graph(t)?);
        }
        b"build" => {
            line.end()?;
            system_builder::build(t)?;
            out.ok();
        }
        name => {
            let g = numbers::read_small(name).ok_or(Fault::Bad)?;
            on_graph(line, t, PgId(g), out)?;
        }
    }
    Ok(())
}

// Every line behind `s` but `s new`.
pub fn answer(line: Line, t: &mut [u64], out: &mut Reply) {
    out.begin();
    let told = answered(line, t, out);
    out.tell(told);
}
