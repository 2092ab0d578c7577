// Lines on what the program holds: a graph and a run of it, a system and its state, and the two tables of the explainer. They stand side by
// side: as a struct it was tried, and the borrow checker does not cover two fields that are lent at once (`on_run`, `on_state`).
use graph_builder;
use graph_text::faults::Fault;
use graph_text::lines::Line;
use graph_text::replies::Reply;
use program_graph::inner::fresh;
use program_graph::record::ProgramGraphRun;
use running_lines::running;
use system_builder;
use why_lines::{regions, why};

fn write(t: &mut [u64], at: usize, word: u64) -> Result<(), Fault> {
    let old = t.get_mut(at).ok_or(Fault::Bad)?;
    *old = word;
    Ok(())
}

// N W
fn poke_at(mut line: Line, t: &mut [u64]) -> Result<(), Fault> {
    let n = line.number()?;
    let word = line.last_wide()?;
    write(t, n as usize, word)
}

// Each word times its place counted from 1, modulo 2^64: the sum of the sums of the last word, the last two, and so on.
fn weighed(t: &[u64]) -> u64 {
    let mut last: u64 = 0;
    let mut sum: u64 = 0;
    for word in t.iter().rev() {
        last = last.wrapping_add(*word);
        sum = sum.wrapping_add(last);
    }
    sum
}

// Lines on the graph. A new one has no run yet.
pub fn on_graph(
    line: Line,
    graph: &mut [u64],
    run: &mut ProgramGraphRun,
    out: &mut Reply,
) -> Result<(), Fault> {
    let mut rest = line;
    if !rest.took(b"new") {
        building_lines::graph::answer(line, graph, out);
        return Ok(());
    }
    rest.end()?;
    *run = fresh::no_run();
    graph_builder::new(graph)?;
    out.ok();
    Ok(())
}

// Lines on the run.
pub fn on_run(line: Line, graph: &[u64], run: &mut ProgramGraphRun, out: &mut Reply) {
    running::answer(line, graph, run, out);
}

// Lines on the system. A new one has no state yet: every word of it is 0.
pub fn on_system(
    line: Line,
    system: &mut [u64],
    state: &mut [u64],
    out: &mut Reply,
) -> Result<(), Fault> {
    let mut rest = line;
    if !rest.took(b"new") {
        building_lines::system::answer(line, system, out);
        return Ok(());
    }
    rest.end()?;
    state.fill(0);
    system_builder::new(system)?;
    out.ok();
    Ok(())
}

// Lines on the state. With a new one the tables of the explainer are copied.
pub fn on_state(
    line: Line,
    system: &[u64],
    state: &mut [u64],
    guards: &mut [u64],
    limits: &mut [u64],
    out: &mut Reply,
) {
    let mut rest = line;
    match rest.next() {
        b"why" => {
            why::answer(rest, system, state, guards, limits, out);
            return;
        }
        b"new" => {
            if rest.ended() {
                regions::copy_tables(system, guards, limits);
            }
        }
        _ => (),
    }
    system_lines::running::answer(line, system, state, out);
}

// g N W, s N W, t N W, and of the explainer's tables guards N W, limits N W
pub fn poke(
    mut line: Line,
    graph: &mut [u64],
    system: &mut [u64],
    state: &mut [u64],
    guards: &mut [u64],
    limits: &mut [u64],
    out: &mut Reply,
) -> Result<(), Fault> {
    match line.next() {
        b"g" => poke_at(line, graph)?,
        b"s" => poke_at(line, system)?,
        b"t" => poke_at(line, state)?,
        b"guards" => poke_at(line, guards)?,
        b"limits" => poke_at(line, limits)?,
        _ => return Err(Fault::Bad),
    }
    out.ok();
    Ok(())
}

// g, s, t
pub fn sum(
    mut line: Line,
    graph: &[u64],
    system: &[u64],
    state: &[u64],
    out: &mut Reply,
) -> Result<(), Fault> {
    let name = line.next();
    line.end()?;
    let sum = match name {
        b"g" => weighed(graph),
        b"s" => weighed(system),
        b"t" => weighed(state),
        _ => return Err(Fault::Bad),
    };
    out.ok_wide(sum);
    Ok(())
}
