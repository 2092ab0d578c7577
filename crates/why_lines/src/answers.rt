// What the explainer told, as a line.
use crate::items;
use explainer::causes::{NO_CANDIDATE, TOLD};
use graph_tables::inner;
use graph_tables::layout::{BOUND_SPAN, WORD32};
use graph_tables::refusals::Refusal;
use graph_text::replies::Reply;
use run_steps::failures;
use time::Bound;

// The bound of a word; of a word that is none, no bound.
fn bound(word: u64) -> Bound {
    if WORD32 <= word / BOUND_SPAN {
        return Bound::Unbounded;
    }
    inner::bound_of(word)
}

// A limit's three words: clock, lower and upper bound.
fn put_limit(out: &mut Reply, part: &[u64]) {
    let [clock, lower, upper, ..] = part else {
        return;
    };
    out.put(b' ');
    out.put_number(*clock);
    out.put(b' ');
    out.put_bound(bound(*lower));
    out.put(b' ');
    out.put_bound(bound(*upper));
}

// What fails, and its part.
fn put_failing(out: &mut Reply, failing: u64, part: &[u64]) {
    match failing {
        NO_CANDIDATE => out.put_all(b" none"),
        failures::GUARD => {
            out.put_all(b" guard");
            items::put_items(out, part);
        }
        failures::LIMIT => {
            out.put_all(b" limit");
            put_limit(out, part);
        }
        _ => {
            out.put_all(b" invariant");
            put_limit(out, part);
        }
    }
}

// The answer, and after an 8 the process and what fails.
pub fn told(out: &mut Reply, words: [u64; TOLD], part: &[u64]) {
    let [answer, process, _, failing, ..] = words;
    if answer == 0 {
        return out.ok();
    }
    out.put_all(b"refused ");
    out.put_number(answer);
    if answer == u64::from(Refusal::UnsatisfiedGuard.number()) {
        out.put(b' ');
        out.put_number(process);
        put_failing(out, failing, part);
    }
    out.end();
}
