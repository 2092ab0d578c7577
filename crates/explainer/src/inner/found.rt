// What a plain step of a system would answer, and the cause of an 8. Nothing of the state is written.
ghost use Rattle.std.specs.Prelude.{◌≡◌, ◌<◌};
ghost use Rattle.graph_tables.specs.Answers.{answer_number};
ghost use Rattle.graph_tables.specs.Sound.{Sound};
ghost use Rattle.program_graph.specs.Inner.{run_at, RunOf};
ghost use Rattle.program_graph.specs.Running.{step_of};
ghost use Rattle.system_tables.specs.Sizes.{graph_room};
ghost use Rattle.system_tables.specs.Sound.{SystemSound};
ghost use Rattle.system_state.specs.Fits.{StateSound};
ghost use Rattle.channel_system.specs.Facts.{Fitting};
ghost use Rattle.explainer.specs.Cause.{place_of};
ghost use Rattle.explainer.specs.Why.{answered, graph_why, plain_why};
ghost use Rattle.explainer.specs.Facts.{Standing};

use crate::causes::{Cause, Found, Part};
use crate::inner::{cause, same};
use channel_system::inner::posts;
use graph_tables::answers::Answer;
use graph_tables::layout::LIMIT_WIDTH;
use graph_tables::refusals::Refusal;
use graph_tables::{inner, runs};
use program_graph::inner::steps;
use run_steps::failures;
use system_state::inner::words::run_at;
use system_tables::ids::{Action, PgId};
use system_tables::inner::words;

// An answer that has no cause.
pub fn answered(number: u32) -> Found
    ensures { result ≡ answered number }
{
    Found {
        answer: number,
        cause: Cause {
            process: 0,
            transition: 0,
            failing: failures::NOTHING,
            number: 0,
        },
        part: Part {
            start: 0,
            length: 0,
        },
    }
}

fn number_of(answer: Answer<()>) -> u32
    ensures { result ≡ answer_number answer }
{
    match answer {
        Ok(()) => 0,
        Err(refusal) => refusal.number(),
    }
}

// What the graph's own plain step answers, made on a copy of the run.
fn step_number(t: &[u64], r: &[u64], a: u32, posts: &[u32], word: u64) -> u32
    requires { Sound t.now × RunOf t.now r.now }
    ensures { result ≡ answer_number (step_of t.now (run_at r.now) a posts.now word).answer }
{
    let mut run = [0; runs::WORDS];
    run.copy_from_slice(r);
    number_of(steps::step(t, &mut run, a, posts, word))
}

// Where the part that fails stands.
fn place_of(t: &[u64], g: usize, c: Cause) -> Part
    requires { Sound t.now × (g < graph_room) × Standing t.now c }
    ensures { result ≡ place_of t.now g c }
{
    let k = c.transition;
    if c.failing == failures::GUARD {
        return Part {
            start: same::guard_at(g, k),
            length: inner::guard_length(t, k),
        };
    }
    if c.failing == failures::LIMIT {
        return Part {
            start: same::group_at(g, k) + LIMIT_WIDTH * c.number,
            length: LIMIT_WIDTH,
        };
    }
    if c.failing == failures::INVARIANT {
        let post = inner::post_of(inner::key_of(t, k));
        return Part {
            start: same::group_at(g, inner::invariant_group(post)) + LIMIT_WIDTH * c.number,
            length: LIMIT_WIDTH,
        };
    }
    Part {
        start: 0,
        length: 0,
    }
}

// Of graph g.
fn on_graph(t: &[u64], s: &[u64], g: usize, a: u32, posts: &[u32], word: u64) -> Found
    requires { Fitting t.now s.now g }
    ensures { result ≡ graph_why t.now s.now g a posts.now word }
{
    let graph = words::graph_at(t, g);
    let run = run_at(s, g);
    let number = step_number(graph, run, a, posts, word);
    if number != Refusal::UnsatisfiedGuard.number() {
        return answered(number);
    }
    let cause = cause::cause(graph, run, a, posts);
    Found {
        answer: number,
        cause,
        part: place_of(graph, g, cause),
    }
}

// On a table and a state that fit.
pub fn plain(t: &[u64], s: &[u64], pg: PgId, action: Action, posts: &[u64], word: u64) -> Found
    requires { SystemSound t.now × StateSound t.now s.now }
    ensures { result ≡ plain_why t.now s.now pg.0 action.0.0 action.1.0 posts.now word }
{
    let g = pg.0;
    if words::graph_count(t) <= g as usize {
        return answered(Refusal::MissingPg.number());
    }
    let owner = action.0;
    if owner.0 != g {
        return answered(Refusal::ActionNotInPg.number());
    }
    if !posts::own(posts, g) {
        return answered(Refusal::LocationNotInPg.number());
    }
    let n = posts::few(posts.len());
    let mut own = [0; posts::FEW];
    posts::locations(posts, n, &mut own);
    let local = action.1;
    on_graph(t, s, g as usize, local.0, &own[0..n], word)
}
