// What calls on a state gave, as a line.
use channel_system::answers::{Event, WaitError};
use graph_tables::answers::Entry;
use graph_tables::refusals::Refusal;
use graph_text::faults::Fault;
use graph_text::replies::Reply;
use program_graph::record::ProgramGraphRun;
use running_lines::answers::{past_end, put_entry, put_message};
use running_lines::showing;
use system_tables::ids::{Communication, Message, PgId};

// A refusal for the invariants of a graph.
fn invariant(out: &mut Reply, g: PgId) {
    out.put_all(b"refused ");
    out.put_number(u64::from(Refusal::Invariant.number()));
    out.put_next_number(g.0);
    out.end();
}

pub fn waited(out: &mut Reply, w: Result<(), WaitError>) -> Result<(), Fault> {
    match w {
        Ok(()) => out.ok(),
        Err(WaitError::Invariant(g)) => invariant(out, g),
        Err(WaitError::Refused(r)) => return Err(Fault::Refused(r)),
    }
    Ok(())
}

// Graph, action, process, post.
pub fn listed(out: &mut Reply, listed: Option<(PgId, Entry)>) {
    let Some((g, e)) = listed else {
        return past_end(out);
    };
    out.put_all(b"ok");
    out.put_next_number(g.0);
    put_entry(out, e);
    out.end();
}

pub fn shown(out: &mut Reply, run: &ProgramGraphRun) {
    out.put_all(b"ok ");
    showing::put_run(out, run);
    out.end();
}

fn put_kind(out: &mut Reply, m: Message) {
    match m {
        Message::Send => out.put_all(b" send"),
        Message::Receive => out.put_all(b" receive"),
        Message::ProbeEmptyQueue => out.put_all(b" empty"),
        Message::ProbeFullQueue => out.put_all(b" full"),
    }
}

// Graph, channel, kind and values of a communication.
pub fn stepped(out: &mut Reply, event: Event) {
    let Communication::On(m, q) = event.on else {
        return out.ok();
    };
    out.put_all(b"ok");
    out.put_next_number(event.pg_id.0);
    out.put_next_number(q.0);
    put_kind(out, m);
    put_message(out, event.values);
    out.end();
}
