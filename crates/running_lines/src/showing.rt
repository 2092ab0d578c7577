// A run as text.
use graph_tables::{inner, sizes};
use graph_text::faults::Fault;
use graph_text::replies::Reply;
use program_graph::record::ProgramGraphRun;

// The first places, values and times.
fn put_first(
    out: &mut Reply,
    run: &ProgramGraphRun,
    processes: usize,
    variables: usize,
    clocks: usize,
) {
    out.put_all(b"places");
    out.put_numbers(&run.places, processes);
    out.put_all(b" vars");
    out.put_values(&run.vars, variables);
    out.put_all(b" clocks");
    out.put_numbers(&run.times, clocks);
}

// What a run has by its own counts.
pub fn put_run(out: &mut Reply, run: &ProgramGraphRun) {
    put_first(out, run, run.processes, run.variables, run.clocks);
}

// What it has by the graph's: no call is made. A count that is above the run's size shows all of the run.
pub fn show(t: &[u64], run: &ProgramGraphRun, out: &mut Reply) -> Result<(), Fault> {
    if t.len() != sizes::WORDS {
        return Err(Fault::Bad);
    }
    out.begin();
    put_first(
        out,
        run,
        inner::process_count(t),
        inner::variable_count(t),
        inner::clock_count(t),
    );
    out.end();
    Ok(())
}
