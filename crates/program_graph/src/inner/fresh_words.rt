// A fresh run of a graph, put into words. What the table does not have is not written. The loops below go by number, since calls read
// what they put from the table (`place_at(t, p)`); for the clocks, `fill(0)` costs the whole 8 per cent more instructions.
ghost use Rattle.std.specs.Prelude.{◌≡◌};
ghost use Rattle.graph_tables.specs.RunWords.{RunWords};
ghost use Rattle.graph_tables.specs.Sound.{Sound};
ghost use Rattle.program_graph.specs.FreshWords.{fresh_counts, fresh_places, fresh_kinds, fresh_payloads, fresh_clocks, fresh_words};

use graph_tables::{inner, runs};

fn put_counts(t: &[u64], r: &mut [u64])
    requires { Sound t.now × RunWords r.old }
    ensures { r.new ≡ fresh_counts t.now r.old }
{
    r[runs::PROCESSES] = inner::process_count(t) as u64;
    r[runs::VARIABLES] = inner::variable_count(t) as u64;
    r[runs::TIMERS] = inner::clock_count(t) as u64;
}

fn put_places(t: &[u64], r: &mut [u64])
    requires { Sound t.now × RunWords r.old }
    ensures { r.new ≡ fresh_places t.now r.old }
{
    for p in 0..inner::process_count(t) {
        r[runs::PLACES + p] = inner::place_at(t, p) as u64;
    }
}

fn put_kinds(t: &[u64], r: &mut [u64])
    requires { Sound t.now × RunWords r.old }
    ensures { r.new ≡ fresh_kinds t.now r.old }
{
    for v in 0..inner::variable_count(t) {
        r[runs::VARS + 2 * v] = inner::kind_at(t, v);
    }
}

fn put_payloads(t: &[u64], r: &mut [u64])
    requires { Sound t.now × RunWords r.old }
    ensures { r.new ≡ fresh_payloads t.now r.old }
{
    for v in 0..inner::variable_count(t) {
        r[runs::VARS + 2 * v + 1] = inner::value_at(t, v);
    }
}

fn put_clocks(t: &[u64], r: &mut [u64])
    requires { Sound t.now × RunWords r.old }
    ensures { r.new ≡ fresh_clocks t.now r.old }
{
    for c in 0..inner::clock_count(t) {
        r[runs::CLOCKS + c] = 0;
    }
}

// The words of a fresh run.
pub fn fresh_words(t: &[u64], r: &mut [u64])
    requires { Sound t.now × RunWords r.old }
    ensures { r.new ≡ fresh_words t.now r.old }
{
    put_counts(t, r);
    put_places(t, r);
    put_kinds(t, r);
    put_payloads(t, r);
    put_clocks(t, r)
}
