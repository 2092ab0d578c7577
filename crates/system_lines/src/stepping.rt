// A line that steps a graph of the system.
use crate::answers;
use channel_system::run;
use graph_tables::ids;
use graph_text::faults::Fault;
use graph_text::lines::Line;
use graph_text::pairs;
use graph_text::pairs::Pair;
use graph_text::replies::Reply;
use system_tables::ids::{Action, PgId};
use text::rows;

// G G:A POSTS W
pub fn step(mut line: Line, t: &[u64], s: &mut [u64], out: &mut Reply) -> Result<(), Fault> {
    let g = PgId(line.number()?);
    let Pair { graph, own } = line.read(pairs::read_action)?;
    let action = Action(PgId(graph), ids::Action(own));
    let posts = pairs::take_posts(&mut line)?;
    let word = line.last_wide()?;
    let part = rows::part(&posts.items, posts.count);
    let event = run::transition(t, s, g, action, part, word)?;
    answers::stepped(out, event);
    Ok(())
}
