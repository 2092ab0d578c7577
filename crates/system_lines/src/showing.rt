// The state as text: the time, the run of each graph, the queue of each channel, by the calls that read them.
use channel_system::readers;
use graph_text::faults::Fault;
use graph_text::replies::Reply;
use running_lines::showing;
use system_tables::ids::{Channel, PgId};
use system_tables::sizes;

// The runs, up to a graph that is not there.
fn put_runs(out: &mut Reply, t: &[u64], s: &[u64]) {
    for g in (0..sizes::GRAPHS as u32).map(PgId) {
        let Ok(run) = readers::program_graph(t, s, g) else {
            return;
        };
        out.put_all(b" | ");
        showing::put_run(out, &run);
    }
}

// The first values of a queue.
fn put_queue(out: &mut Reply, t: &[u64], s: &[u64], q: Channel, n: usize) {
    out.put_all(b" | queue");
    for k in 0..n {
        let Ok(Some(value)) = readers::queue_value(t, s, q, k) else {
            return;
        };
        out.put_next_value(value);
    }
}

// The queues, up to a channel that is not there.
fn put_queues(out: &mut Reply, t: &[u64], s: &[u64]) {
    for q in (0..sizes::CHANNELS as u32).map(Channel) {
        let Ok(n) = readers::queue_length(t, s, q) else {
            return;
        };
        put_queue(out, t, s, q, n);
    }
}

pub fn show(t: &[u64], s: &[u64], out: &mut Reply) -> Result<(), Fault> {
    let n = readers::time(t, s)?;
    out.put_all(b"time");
    out.put_next_number(n);
    put_runs(out, t, s);
    put_queues(out, t, s);
    out.end();
    Ok(())
}
