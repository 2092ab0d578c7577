// A line that asks why a step of a graph of the system answered 8.
use crate::answers;
use explainer::causes::TOLD;
use explainer::why;
use graph_tables::ids;
use graph_text::faults::Fault;
use graph_text::lines::Line;
use graph_text::pairs;
use graph_text::pairs::Pair;
use graph_text::replies::Reply;
use system_tables::ids::{Action, PgId};
use text::rows;

fn answered<'a>(
    mut line: Line,
    t: &[u64],
    s: &[u64],
    guards: &'a [u64],
    limits: &'a [u64],
    out: &mut Reply,
) -> Result<(), Fault> {
    let g = PgId(line.number()?);
    let Pair { graph, own } = line.read(pairs::read_action)?;
    let action = Action(PgId(graph), ids::Action(own));
    let posts = pairs::take_posts(&mut line)?;
    let word = line.last_wide()?;
    let asked = rows::part(&posts.items, posts.count);
    let mut told = [0u64; TOLD];
    let part = why::why(t, s, guards, limits, g, action, asked, word, &mut told);
    answers::told(out, told, part);
    Ok(())
}

// G G:A POSTS W
pub fn answer<'a>(
    line: Line,
    t: &[u64],
    s: &[u64],
    guards: &'a [u64],
    limits: &'a [u64],
    out: &mut Reply,
) {
    out.begin();
    let told = answered(line, t, s, guards, limits, out);
    out.tell(told);
}
