// What calls on an expression gave, as a line.
use grammar::typing::Typed;
use grammar::values::Val;
use graph_text::replies::Reply;

pub fn typed(out: &mut Reply, t: Typed) {
    match t {
        Typed::Known(k) => out.kind(k),
        Typed::IllTyped | Typed::TableFull | Typed::TooDeep(_) => out.refused(t.number()),
    }
}

// A value or none, and the rest of the word.
pub fn evaluated(out: &mut Reply, e: Option<Val>, rest: u64) {
    match e {
        Some(x) => {
            out.put_all(b"ok");
            out.put_next_value(x);
        }
        None => out.put_all(b"none"),
    }
    out.put(b' ');
    out.put_number(rest);
    out.end();
}
