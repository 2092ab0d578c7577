// A run by value put into words, and read back over itself.
ghost use Rattle.std.specs.Prelude.{◌≡◌, ◌*◌, ◌≤◌, length, take, set};
ghost use Rattle.grammar.specs.Slots.{slots_of};
ghost use Rattle.graph_tables.specs.Sizes.{process_room, variable_room, clock_room};
ghost use Rattle.graph_tables.specs.RunWords.{RunWords, run_places_start, places_in, vars_in, clocks_in};
ghost use Rattle.program_graph.specs.Inner.{run_at, Parts, Small, over_below, over, VarsStored, Stored};

use crate::record::ProgramGraphRun;
use grammar::inner::slots;
use grammar::values::Slot;
use graph_tables::{runs, sizes};

// Numbers as words.
fn widen(to: &mut [u64], from: &[u32])
    requires { length to.old ≡ length from.now }
    ensures { (to.new ≡ from.now) × Small from.now }
{
    for i in 0..from.len() {
        to[i] = from[i] as u64;
    }
}

// Words as numbers.
fn narrow(to: &mut [u32], from: &[u64])
    requires { (length to.old ≡ length from.now) × Small from.now }
    ensures { to.new ≡ from.now }
{
    for i in 0..from.len() {
        to[i] = from[i] as u32;
    }
}

fn put_counts(r: &mut [u64], run: ProgramGraphRun)
    requires { RunWords r.old }
    ensures { r.new ≡ set (set (set r.old 0 run.processes) 1 run.variables) 2 run.clocks }
{
    r[runs::PROCESSES] = run.processes as u64;
    r[runs::VARIABLES] = run.variables as u64;
    r[runs::TIMERS] = run.clocks as u64;
}

fn put_places(r: &mut [u64], places: [u32; sizes::PROCESSES])
    requires { RunWords r.old }
    ensures { Parts r.new (take run_places_start r.old) places (vars_in r.old) (clocks_in r.old)
        × Small places }
{
    widen(&mut r[runs::PLACES..runs::VARS], &places)
}

fn put_times(r: &mut [u64], times: [u32; sizes::CLOCKS])
    requires { RunWords r.old }
    ensures { Parts r.new (take run_places_start r.old) (places_in r.old) (vars_in r.old) times
        × Small times }
{
    widen(&mut r[runs::CLOCKS..runs::WORDS], &times)
}

// The first n values as words.
fn put_vars(ws: &mut [u64], vars: [Slot; sizes::VARIABLES], n: usize)
    requires { (length ws.old ≡ 2 * variable_room) × (n ≤ variable_room) }
    ensures { VarsStored ws.new vars n × (length vars ≡ variable_room) }
{
    for v in 0..n {
        let slot = vars[v];
        let x = slot.value;
        slots::put(ws, v, x);
    }
}

// A run in words: its counts, places and times, and the variables that it has.
pub fn store(r: &mut [u64], run: ProgramGraphRun)
    requires { RunWords r.old × (run.variables ≤ variable_room) }
    ensures { Stored r.new run }
{
    put_counts(r, run);
    let places = run.places;
    put_places(r, places);
    let times = run.times;
    put_times(r, times);
    let vars = run.vars;
    put_vars(&mut r[runs::VARS..runs::CLOCKS], vars, run.variables)
}

fn get_places(r: &[u64]) -> [u32; sizes::PROCESSES]
    requires { RunWords r.now × Small (places_in r.now) }
    ensures { result ≡ places_in r.now }
{
    let mut places = [0; sizes::PROCESSES];
    narrow(&mut places, &r[runs::PLACES..runs::VARS]);
    places
}

fn get_times(r: &[u64]) -> [u32; sizes::CLOCKS]
    requires { RunWords r.now × Small (clocks_in r.now) }
    ensures { result ≡ clocks_in r.now }
{
    let mut times = [0; sizes::CLOCKS];
    narrow(&mut times, &r[runs::CLOCKS..runs::WORDS]);
    times
}

// The first n variables as their words say.
pub(crate) fn vars_over(
    from: [Slot; sizes::VARIABLES],
    ws: &[u64],
    n: usize,
) -> [Slot; sizes::VARIABLES]
    requires { (length ws.now ≡ 2 * variable_room) × (n ≤ variable_room) }
    ensures { result ≡ over_below from (slots_of ws.now) n }
{
    let mut vars = from;
    for v in 0..n {
        let value = slots::value_of(ws[2 * v], ws[2 * v + 1]);
        vars[v] = Slot { value };
    }
    vars
}

// The run of some words, over the one that was put there: what it does not use comes back as it was.
pub fn load(r: &[u64], run: ProgramGraphRun) -> ProgramGraphRun
    requires { RunWords r.now × (run.variables ≤ variable_room) × Small (places_in r.now) × Small (clocks_in r.now) }
    ensures { result ≡ over run (run_at r.now) }
{
    let places = get_places(r);
    let times = get_times(r);
    let from = run.vars;
    let vars = vars_over(from, &r[runs::VARS..runs::CLOCKS], run.variables);
    ProgramGraphRun {
        places,
        vars,
        times,
        processes: run.processes,
        variables: run.variables,
        clocks: run.clocks,
    }
}
