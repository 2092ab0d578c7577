// A wait of a system, on a table and a state that fit: the time and all clocks fit, then all invariants hold. A refusal leaves every word.
ghost use Rattle.std.specs.Prelude.{◌≡◌, true};
ghost use Rattle.laws.specs.Below.{all_below, any_below};
ghost use Rattle.run_steps.specs.Lowest.{lowest};
ghost use Rattle.system_tables.specs.Words.{graph_count};
ghost use Rattle.system_tables.specs.Sound.{SystemSound};
ghost use Rattle.system_state.specs.Fits.{StateSound};
ghost use Rattle.channel_system.specs.Waits.{clocks_fit, graph_holds, graph_waits, later_on, all_fit, later_below, later_state};
ghost use Rattle.channel_system.specs.Waits.{wait_open, system_waits, passed_of};
ghost use Rattle.channel_system.specs.Facts.{Fitting};

use crate::answers::WaitError;
use graph_tables::refusals::Refusal;
use graph_tables::runs;
use program_graph::inner::waits;
use system_state::inner::words;
use system_tables::ids::PgId;
use time;

// No clock of graph g passes the last time.
fn clocks_fit(t: &[u64], s: &[u64], delta: u32, g: usize) -> bool
    requires { Fitting t.now s.now g }
    ensures { result ≡ clocks_fit s.now delta g }
{
    waits::wait_fits(
        system_tables::inner::words::graph_at(t, g),
        words::run_at(s, g),
        delta,
    )
}

fn all_clocks_fit(t: &[u64], s: &[u64], delta: u32) -> bool
    requires { SystemSound t.now × StateSound t.now s.now }
    ensures { result ≡ all_below (graph_count t.now) (clocks_fit s.now delta) }
{
    (0..system_tables::inner::words::graph_count(t)).all(|g| clocks_fit(t, s, delta, g))
}

// Neither the time nor a clock passes the last time.
fn all_fit(t: &[u64], s: &[u64], delta: u32) -> bool
    requires { SystemSound t.now × StateSound t.now s.now }
    ensures { result ≡ all_fit t.now s.now delta }
{
    if (time::LAST as u64) < words::time_of(s) + delta as u64 {
        return false;
    }
    all_clocks_fit(t, s, delta)
}

// The invariants of graph g hold at the end.
fn graph_holds(t: &[u64], s: &[u64], delta: u32, g: usize) -> bool
    requires { Fitting t.now s.now g × (clocks_fit s.now delta g ≡ true) }
    ensures { result ≡ graph_holds t.now s.now delta g }
{
    waits::wait_holds(
        system_tables::inner::words::graph_at(t, g),
        words::run_at(s, g),
        delta,
    )
}

// The lowest graph whose invariants stand against the wait, or the number of graphs. `find` would need `unwrap_or` of that number, no
// plainer.
fn objector(t: &[u64], s: &[u64], delta: u32) -> usize
    requires { SystemSound t.now × StateSound t.now s.now × (all_fit t.now s.now delta ≡ true) }
    ensures { result ≡ lowest (graph_count t.now) (graph_holds t.now s.now delta) }
{
    let n = system_tables::inner::words::graph_count(t);
    for g in 0..n {
        if !graph_holds(t, s, delta, g) {
            return g;
        }
    }
    n
}

// Whether a wait would be accepted.
pub fn can_wait(t: &[u64], s: &[u64], delta: u32) -> bool
    requires { SystemSound t.now × StateSound t.now s.now }
    ensures { result ≡ wait_open t.now s.now delta }
{
    all_fit(t, s, delta) && objector(t, s, delta) == system_tables::inner::words::graph_count(t)
}

fn graph_waits(t: &[u64], s: &[u64], g: usize) -> bool
    requires { Fitting t.now s.now g }
    ensures { result ≡ graph_waits t.now s.now g }
{
    waits::is_waiting_on(
        system_tables::inner::words::graph_at(t, g),
        words::run_at(s, g),
    )
}

fn any_waits(t: &[u64], s: &[u64]) -> bool
    requires { SystemSound t.now × StateSound t.now s.now }
    ensures { result ≡ any_below (graph_count t.now) (graph_waits t.now s.now) }
{
    (0..system_tables::inner::words::graph_count(t)).any(|g| graph_waits(t, s, g))
}

// Whether time may pass, and some graph waits for it.
pub fn is_waiting(t: &[u64], s: &[u64]) -> bool
    requires { SystemSound t.now × StateSound t.now s.now }
    ensures { result ≡ system_waits t.now s.now }
{
    can_wait(t, s, 1) && any_waits(t, s)
}

// The clocks of graph g are moved.
fn later_on(t: &[u64], s: &mut [u64], delta: u32, g: usize)
    requires { Fitting t.now s.old g × (clocks_fit s.old delta g ≡ true) }
    ensures { s.new ≡ later_on t.now s.old delta g }
{
    let a = words::run_start(g);
    let e = a + runs::WORDS;
    waits::advance(
        system_tables::inner::words::graph_at(t, g),
        &mut s[a..e],
        delta,
    )
}

fn later_graphs(t: &[u64], s: &mut [u64], delta: u32)
    requires { SystemSound t.now × StateSound t.now s.old × (all_fit t.now s.old delta ≡ true) }
    ensures { s.new ≡ later_below t.now s.old delta (graph_count t.now) }
{
    for g in 0..system_tables::inner::words::graph_count(t) {
        later_on(t, s, delta, g);
    }
}

// All clocks and the time are moved.
fn later(t: &[u64], s: &mut [u64], delta: u32)
    requires { SystemSound t.now × StateSound t.now s.old × (all_fit t.now s.old delta ≡ true) }
    ensures { s.new ≡ later_state t.now s.old delta }
{
    let end = words::time_of(s) as u32 + delta;
    later_graphs(t, s, delta);
    words::set_time(s, end)
}

// A wait.
pub fn wait(t: &[u64], s: &mut [u64], delta: u32) -> Result<(), WaitError>
    requires { SystemSound t.now × StateSound t.now s.old }
    ensures { (result ≡ (passed_of t.now s.old delta).answer)
        × (s.new ≡ (passed_of t.now s.old delta).state) }
{
    if !all_fit(t, s, delta) {
        return Err(WaitError::Refused(Refusal::Overflow));
    }
    let g = objector(t, s, delta);
    if g < system_tables::inner::words::graph_count(t) {
        return Err(WaitError::Invariant(PgId(g as u32)));
    }
    later(t, s, delta);
    Ok(())
}
