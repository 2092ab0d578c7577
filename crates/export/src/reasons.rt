// Why a plain step answered 8.
ghost use Rattle.std.specs.Prelude.{◌≡◌};
ghost use Rattle.explainer.specs.Layout.{all_guards, all_limits};
ghost use Rattle.explainer.specs.Why.{found_of};
ghost use Rattle.c_words.specs.Told.{Says};
ghost use Rattle.c_words.specs.Given.{reading, Tells};
ghost use Rattle.export.specs.Findings.{cause_words, cause_told};

use c_words::inner::{given, values};
use explainer::causes::Found;
use explainer::{layout, why};
use graph_tables::refusals::Refusal;
use system_tables::ids::{Action, PgId};

// How many words a cause has.
const WORDS: usize = 6;

pub fn njn_cause_words() -> usize
    ensures { result ≡ cause_words }
{
    WORDS
}

// The two tables that are lent.
pub fn njn_guards_words() -> usize
    ensures { result ≡ all_guards }
{
    layout::ALL_GUARDS
}

pub fn njn_limits_words() -> usize
    ensures { result ≡ all_limits }
{
    layout::ALL_LIMITS
}

// The cause is told where the answer is 8.
fn found(found: Found, out: &mut [u64]) -> u32
    ensures { Says result out.new out.old (cause_told found) }
{
    let answer = found.answer;
    if answer != Refusal::UnsatisfiedGuard.number() {
        return answer;
    }
    let cause = found.cause;
    let part = found.part;
    values::put_all(
        out,
        &[
            cause.process as u64,
            cause.transition as u64,
            cause.failing,
            cause.number as u64,
            part.start as u64,
            part.length as u64,
        ],
    );
    answer
}

// The part that fails is told by its place: a caller has the table that it lent.
pub fn njn_state_why(
    t: &[u64],
    s: &[u64],
    guards: &[u64],
    limits: &[u64],
    pg: u32,
    owner: u32,
    action: u32,
    posts: &[u64],
    word: u64,
    out: &mut [u64],
) -> u32
    ensures { Tells result out.new (reading cause_words out.old (cause_told (found_of t.now s.now
        guards.now limits.now pg owner action posts.now word))) }
{
    if out.len() < WORDS {
        return given::SHORT;
    }
    let by = Action(PgId(owner), graph_tables::ids::Action(action));
    found(
        why::find(t, s, guards, limits, PgId(pg), by, posts, word),
        out,
    )
}
