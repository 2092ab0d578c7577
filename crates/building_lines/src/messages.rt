// Lines that make a send or a receive, from the message on, by the call that makes it.
use graph_tables::answers::Answer;
use graph_tables::handed::Vars;
use graph_text::faults::Fault;
use graph_text::lines::Line;
use graph_text::messages;
use graph_text::messages::Sizes;

// EXPR..
pub(crate) fn send<F: FnOnce(usize, &[u64], &[u64], &[u64], &[u64]) -> Answer<u32>>(
    line: Line,
    new_send: F,
) -> Result<u32, Fault>
    requires { F.IsAlwaysCallable new_send }
{
    let mut words = [0u64; messages::WORDS];
    let Sizes { count, sizes } = messages::read_expressions(line, &mut words)?;
    let [a, b, c, d, ..] = sizes;
    let w = messages::nth(&words, 0, a);
    let x = messages::nth(&words, 1, b);
    let y = messages::nth(&words, 2, c);
    let z = messages::nth(&words, 3, d);
    Ok(new_send(count, w, x, y, z)?)
}

// V..
pub(crate) fn receive<F: FnOnce(Vars) -> Answer<u32>>(
    line: Line,
    new_receive: F,
) -> Result<u32, Fault>
    requires { F.IsAlwaysCallable new_receive }
{
    Ok(new_receive(messages::read_vars(line)?)?)
}
