// Every line of standard input is answered.
use crate::{expressions, tables};
use graph_text::faults::Fault;
use graph_text::lines::Line;
use graph_text::replies::Reply;
use program_graph::record::ProgramGraphRun;
use std::io;
use text::lines::Reader;
use text::{lines, ranges, rows};

// Room for the longest answer, a state that is shown whole.
const ANSWER: usize = 10000;

fn answer(
    mut line: Line,
    graph: &mut [u64],
    run: &mut ProgramGraphRun,
    system: &mut [u64],
    state: &mut [u64],
    guards: &mut [u64],
    limits: &mut [u64],
    out: &mut Reply,
) -> Result<(), Fault> {
    match line.next() {
        b"g" => tables::on_graph(line, graph, run, out)?,
        b"r" => tables::on_run(line, graph, run, out),
        b"s" => tables::on_system(line, system, state, out)?,
        b"t" => tables::on_state(line, system, state, guards, limits, out),
        b"poke" => tables::poke(line, graph, system, state, guards, limits, out)?,
        b"sum" => tables::sum(line, graph, system, state, out)?,
        b"range" => out.length = ranges::answer(line.bytes, line.at, out.out),
        b"type" => expressions::type_of(line, out)?,
        b"draws" => expressions::draws_of(line, out)?,
        b"eval" => expressions::evaluate(line, out)?,
        _ => return Err(Fault::Bad),
    }
    Ok(())
}

// Writes the answer to a line.
fn tell(
    rt: &impl Print,
    line: &[u8],
    length: usize,
    graph: &mut [u64],
    run: &mut ProgramGraphRun,
    system: &mut [u64],
    state: &mut [u64],
    guards: &mut [u64],
    limits: &mut [u64],
) -> io::Result<()> {
    let mut bytes = [0u8; ANSWER];
    let mut out = Reply::new(&mut bytes);
    let told = if lines::LONGEST < length {
        Err(Fault::Bad)
    } else {
        answer(
            Line::new(rows::part(line, length)),
            graph,
            run,
            system,
            state,
            guards,
            limits,
            &mut out,
        )
    };
    out.tell(told);
    rt.write_all(out.written())
}

// The turns are counted, as in reading.
pub fn answer_all(
    rt: &(impl Input + Print),
    line: &mut [u8],
    graph: &mut [u64],
    run: &mut ProgramGraphRun,
    system: &mut [u64],
    state: &mut [u64],
    guards: &mut [u64],
    limits: &mut [u64],
) -> io::Result<()> {
    let mut from = rt.reader();
    let mut reader = Reader::new();
    for _ in 0..u64::MAX {
        let Some(length) = reader.read_line(&mut from, line)? else {
            return Ok(());
        };
        tell(rt, line, length, graph, run, system, state, guards, limits)?;
    }
    Ok(())
}
