// Lines that build one graph, on a table of its own.
use crate::builders::Alone;
use crate::{building, messages};
use graph_builder;
use graph_text::faults::Fault;
use graph_text::lines::Line;
use graph_text::replies::Reply;

fn answered(mut line: Line, t: &mut [u64], out: &mut Reply) -> Result<(), Fault> {
    match line.next() {
        b"send" => {
            let placed = messages::send(line, |count, w, x, y, z| {
                graph_builder::new_send(t, count, w, x, y, z)
            })?;
            out.ok_number(placed);
        }
        b"receive" => {
            let placed = messages::receive(line, |vars| graph_builder::new_receive(t, vars))?;
            out.ok_number(placed);
        }
        b"build" => {
            line.end()?;
            graph_builder::build(t)?;
            out.ok();
        }
        verb => building::answer(verb, line, &mut Alone { table: t }, out)?,
    }
    Ok(())
}

// Every line behind `g` but `g new`.
pub fn answer(line: Line, t: &mut [u64], out: &mut Reply) {
    out.begin();
    let told = answered(line, t, out);
    out.tell(told);
}
