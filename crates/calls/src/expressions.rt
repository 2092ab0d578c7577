// Lines on an expression alone: its kind, its draws, its value.
use crate::answers;
use grammar::{draws, evaluation, typing};
use graph_text::faults::Fault;
use graph_text::lines::Line;
use graph_text::lists::ITEMS;
use graph_text::replies::Reply;
use text::lists::read_kinds;
use text::rows;

// The most variables that an expression is typed or evaluated over.
const VARIABLES: usize = 16;

// EXPR KINDS
pub fn type_of(mut line: Line, out: &mut Reply) -> Result<(), Fault> {
    let mut words = [0u64; ITEMS];
    let expression = line.expression(&mut words)?;
    let mut kinds = [0u64; VARIABLES];
    let count = read_kinds(line.next(), &mut kinds).ok_or(Fault::Bad)?;
    line.end()?;
    answers::typed(out, typing::type_of(expression, rows::part(&kinds, count)));
    Ok(())
}

// EXPR
pub fn draws_of(mut line: Line, out: &mut Reply) -> Result<(), Fault> {
    let mut words = [0u64; ITEMS];
    let expression = line.expression(&mut words)?;
    line.end()?;
    out.ok_wide(draws::count_draws(expression) as u64);
    Ok(())
}

// EXPR ( VALUE.. ) W. Variables past the values are false.
pub fn evaluate(mut line: Line, out: &mut Reply) -> Result<(), Fault> {
    let mut words = [0u64; ITEMS];
    let expression = line.expression(&mut words)?;
    line.word(b"(")?;
    let slots = line.values().items;
    line.word(b")")?;
    let word = line.last_wide()?;
    let e = evaluation::evaluate(expression, slots, word);
    answers::evaluated(out, e.value, e.rest);
    Ok(())
}
