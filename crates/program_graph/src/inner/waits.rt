// A wait of a run in words, on a table that it fits: all clocks fit, then all invariants hold. A refusal leaves every word.
ghost use Rattle.std.specs.Prelude.{◌≡◌, true, length};
ghost use Rattle.laws.specs.Below.{all_below};
ghost use Rattle.graph_tables.specs.Sizes.{clock_room};
ghost use Rattle.graph_tables.specs.RunWords.{run_processes, run_clocks, places_in, clocks_in};
ghost use Rattle.graph_tables.specs.Sound.{Sound};
ghost use Rattle.run_steps.specs.Steps.{shifted_below, place_holds};
ghost use Rattle.program_graph.specs.Running.{wait_fits, wait_holds, wait_open, waits_on, later, waited_of};
ghost use Rattle.program_graph.specs.Inner.{run_at, RunOf, Leaves, DidCall};

use crate::inner::steps;
use graph_tables::answers::Answer;
use graph_tables::refusals::Refusal;
use graph_tables::{runs, sizes};
use run_steps::inner::{copies, waiting, waits};

// No clock passes the last time.
pub fn wait_fits(t: &[u64], r: &[u64], delta: u32) -> bool
    requires { Sound t.now × RunOf t.now r.now }
    ensures { result ≡ wait_fits (run_at r.now) delta }
{
    waits::clocks_fit(
        &r[runs::CLOCKS..runs::WORDS],
        r[runs::TIMERS] as usize,
        delta,
    )
}

// The clocks after the wait, in words of their own.
fn times_later(t: &[u64], r: &[u64], delta: u32, times: &mut [u64])
    requires { Sound t.now × RunOf t.now r.now × (length times.old ≡ clock_room) × (wait_fits (run_at r.now) delta ≡ true) }
    ensures { times.new ≡ shifted_below (clocks_in r.now) delta (run_clocks r.now) }
{
    copies::copy(times, &r[runs::CLOCKS..runs::WORDS]);
    waits::shift(times, r[runs::TIMERS] as usize, delta)
}

// The invariants at the place of every process.
fn places_hold(t: &[u64], r: &[u64], times: &[u64]) -> bool
    requires { Sound t.now × RunOf t.now r.now × (length times.now ≡ clock_room) }
    ensures { result ≡ all_below (run_processes r.now) (place_holds t.now (places_in r.now) times.now) }
{
    let n = r[runs::PROCESSES] as usize;
    waits::places_hold(t, &r[runs::PLACES..runs::PLACES + n], times)
}

// Every invariant holds at the end of a wait whose clocks fit.
pub fn wait_holds(t: &[u64], r: &[u64], delta: u32) -> bool
    requires { Sound t.now × RunOf t.now r.now × (wait_fits (run_at r.now) delta ≡ true) }
    ensures { result ≡ wait_holds t.now (run_at r.now) delta }
{
    let n = r[runs::PROCESSES] as usize;
    waits::places_hold_later(
        t,
        &r[runs::PLACES..runs::PLACES + n],
        &r[runs::CLOCKS..runs::WORDS],
        delta,
    )
}

// A wait on a table and a run that are known to fit.
pub fn wait_on(t: &[u64], r: &mut [u64], delta: u32) -> Answer<()>
    requires { Sound t.now × RunOf t.now r.old }
    ensures { DidCall t.now r.old result r.new (waited_of t.now (run_at r.old) delta) }
{
    if !wait_fits(t, r, delta) {
        return Err(Refusal::Overflow);
    }
    let mut times = [0; sizes::CLOCKS];
    times_later(t, r, delta, &mut times);
    if !places_hold(t, r, &times) {
        return Err(Refusal::Invariant);
    }
    steps::set_times(r, &times);
    Ok(())
}

// The clocks moved by a wait that fits: no other word is written.
pub fn advance(t: &[u64], r: &mut [u64], delta: u32)
    requires { Sound t.now × RunOf t.now r.old × (wait_fits (run_at r.old) delta ≡ true) }
    ensures { Leaves t.now r.old (later (run_at r.old) delta) r.new }
{
    let n = r[runs::TIMERS] as usize;
    waits::shift(&mut r[runs::CLOCKS..runs::WORDS], n, delta)
}

pub fn can_wait_on(t: &[u64], r: &[u64], delta: u32) -> bool
    requires { Sound t.now × RunOf t.now r.now }
    ensures { result ≡ wait_open t.now (run_at r.now) delta }
{
    if !wait_fits(t, r, delta) {
        return false;
    }
    wait_holds(t, r, delta)
}

// Whether some transition will be open later.
pub fn is_waiting_on(t: &[u64], r: &[u64]) -> bool
    requires { Sound t.now × RunOf t.now r.now }
    ensures { result ≡ waits_on t.now (run_at r.now) }
{
    if !can_wait_on(t, r, 1) {
        return false;
    }
    let n = r[runs::PROCESSES] as usize;
    waiting::waiting(
        t,
        &r[runs::CLOCKS..runs::WORDS],
        &r[runs::PLACES..runs::PLACES + n],
    )
}
