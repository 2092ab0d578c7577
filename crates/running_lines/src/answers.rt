// What calls on a run gave, as a line.
use graph_tables::answers::Entry;
use graph_tables::handed::Message;
use graph_text::replies::Reply;
use program_graph::answers::Places;

// Action, process, post, a blank before each.
pub fn put_entry(out: &mut Reply, e: Entry) {
    out.put(b' ');
    out.put_action(e.action);
    out.put(b' ');
    out.put_number(e.process as u64);
    out.put_next_number(e.post);
}

pub fn past_end(out: &mut Reply) {
    out.begin();
    out.put_all(b"end\n");
}

pub fn listed(out: &mut Reply, listed: Option<Entry>) {
    let Some(e) = listed else {
        return past_end(out);
    };
    out.begin();
    out.put_all(b"ok");
    put_entry(out, e);
    out.end();
}

pub fn states(out: &mut Reply, s: Places) {
    out.begin();
    out.put_all(b"ok");
    out.put_numbers(&s.places, s.count);
    out.end();
}

// Its values, a blank before each.
pub fn put_message(out: &mut Reply, message: Message) {
    out.put_values(&message.values, message.count);
}

pub fn sent(out: &mut Reply, message: Message) {
    out.begin();
    out.put_all(b"ok");
    put_message(out, message);
    out.end();
}
