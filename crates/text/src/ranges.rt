// Lines on a time range. Each answer is what the range's call answered.
use crate::{answers, bounds, numbers, output, tokens};
use time::TimeRange;

fn put_range(out: &mut [u8], r: TimeRange) -> usize {
    let a = output::put_all(out, 0, b"ok ");
    let b = output::put_bound(out, a, r.start_bound());
    let c = output::put(out, b, b' ');
    let d = output::put_bound(out, c, r.end_bound());
    answers::end(out, d)
}

// has N, or shift N
fn asked(line: &[u8], at: usize, r: TimeRange, out: &mut [u8]) -> usize {
    let verb = tokens::token(line, at);
    let here = tokens::next(line, at);
    let Some(n) = numbers::read_small(tokens::token(line, here)) else {
        return answers::bad(out);
    };
    if !tokens::ended(line, tokens::next(line, here)) {
        return answers::bad(out);
    }
    if tokens::is(verb, b"has") {
        return answers::yes_or_no(out, r.contains(n));
    }
    if tokens::is(verb, b"shift") {
        return put_range(out, r.shift(n));
    }
    answers::bad(out)
}

// LO HI ..
pub fn answer(line: &[u8], at: usize, out: &mut [u8]) -> usize {
    let Some(lower) = bounds::read_limit(tokens::token(line, at)) else {
        return answers::bad(out);
    };
    let here = tokens::next(line, at);
    let Some(upper) = bounds::read_limit(tokens::token(line, here)) else {
        return answers::bad(out);
    };
    asked(
        line,
        tokens::next(line, here),
        TimeRange::new(lower, upper),
        out,
    )
}
