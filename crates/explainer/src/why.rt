// Why a plain step answered 8.
ghost use Rattle.std.specs.Prelude.{◌≡◌};
ghost use Rattle.explainer.specs.Why.{found_of, told_of, part_of};
ghost use Rattle.explainer.specs.Facts.{Within};

use crate::causes::{Found, TOLD};
use crate::inner::{found, same};
use channel_system::run;
use graph_tables::refusals::Refusal;
use run_steps::failures;
use system_tables::ids::{Action, PgId};

// The answer, the cause and where the part stands.
pub fn find(
    t: &[u64],
    s: &[u64],
    guards: &[u64],
    limits: &[u64],
    pg: PgId,
    action: Action,
    posts: &[u64],
    word: u64,
) -> Found
    ensures { result
        ≡ found_of t.now s.now guards.now limits.now pg.0 action.0.0 action.1.0
        posts.now word }
{
    if !run::system_fits(t, s) {
        return found::answered(Refusal::BadState.number());
    }
    if !same::tables_same(t, guards, limits) {
        return found::answered(Refusal::TypeMismatch.number());
    }
    found::plain(t, s, pg, action, posts, word)
}

// The part of one table or the other.
fn part<'a>(guards: &'a [u64], limits: &'a [u64], found: Found) -> &'a [u64]
    requires { Within guards.now limits.now found }
    ensures { result.now ≡ part_of guards.now limits.now found }
{
    let cause = found.cause;
    let place = found.part;
    let start = place.start;
    let end = start + place.length;
    if cause.failing == failures::GUARD {
        return &guards[start..end];
    }
    &limits[start..end]
}

// Asks a step again, without making it. Lent beside the system are its guards' items and its limits. Told are the answer and the cause, and
// handed back is the part of the one lent table or the other that fails, empty where none does.
pub fn why<'a>(
    t: &[u64],
    s: &[u64],
    guards: &'a [u64],
    limits: &'a [u64],
    pg: PgId,
    action: Action,
    posts: &[u64],
    word: u64,
    told: &mut [u64; TOLD],
) -> &'a [u64]
    ensures { (told.new
        ≡ told_of (found_of t.now s.now guards.now limits.now pg.0 action.0.0 action.1.0
        posts.now word))
        × (result.now ≡ part_of guards.now limits.now (found_of t.now s.now guards.now
        limits.now pg.0 action.0.0 action.1.0 posts.now word)) }
{
    let found = find(t, s, guards, limits, pg, action, posts, word);
    let cause = found.cause;
    *told = [
        found.answer as u64,
        cause.process as u64,
        cause.transition as u64,
        cause.failing,
        cause.number as u64,
    ];
    part(guards, limits, found)
}
