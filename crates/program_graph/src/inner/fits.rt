// Whether a run is one of a table's, handed in by value or as words.
ghost use Rattle.std.specs.Prelude.{◌≡◌, true, ◌*◌, ◌≤◌, ◌<◌, length};
ghost use Rattle.laws.specs.Below.{all_below};
ghost use Rattle.graph_tables.specs.Sizes.{process_room, variable_room};
ghost use Rattle.graph_tables.specs.Words.{variable_count, clock_count, process_count};
ghost use Rattle.graph_tables.specs.RunWords.{RunWords, places_in, vars_in, clocks_in};
ghost use Rattle.graph_tables.specs.Sound.{Sound};
ghost use Rattle.run_steps.specs.Steps.{clock_fits};
ghost use Rattle.program_graph.specs.Running.{place_known, var_fits, counts_same, run_formed};
ghost use Rattle.program_graph.specs.Inner.{run_at};
ghost use Rattle.program_graph.specs.Fits.{var_words_fit, run_words_fit};

use crate::record::ProgramGraphRun;
use grammar::inner::slots;
use grammar::values::Slot;
use graph_tables::{inner, runs, sizes};
use run_steps::inner::waits;

fn var_fits(t: &[u64], vars: [Slot; sizes::VARIABLES], v: usize) -> bool
    requires { Sound t.now × (v < variable_room) }
    ensures { result ≡ var_fits t.now vars v }
{
    let slot = vars[v];
    let value = slot.value;
    value.kind().word() == inner::kind_at(t, v)
}

fn vars_fit(t: &[u64], vars: [Slot; sizes::VARIABLES], n: usize) -> bool
    requires { Sound t.now × (n ≤ variable_room) }
    ensures { result ≡ all_below n (var_fits t.now vars) }
{
    (0..n).all(|v| var_fits(t, vars, v))
}

fn places_known(t: &[u64], places: [u32; sizes::PROCESSES], n: usize) -> bool
    requires { Sound t.now × (n ≤ process_room) }
    ensures { result ≡ all_below n (place_known t.now places) }
{
    let locations = inner::location_count(t);
    (0..n).all(|p| (places[p] as usize) < locations)
}

fn counts_same(t: &[u64], run: ProgramGraphRun) -> bool
    requires { Sound t.now }
    ensures { result ≡ counts_same t.now run }
{
    if run.processes != inner::process_count(t) {
        return false;
    }
    if run.variables != inner::variable_count(t) {
        return false;
    }
    run.clocks == inner::clock_count(t)
}

// The run is one of the table's.
pub fn run_formed(t: &[u64], run: ProgramGraphRun) -> bool
    requires { Sound t.now }
    ensures { result ≡ run_formed t.now run }
{
    if !counts_same(t, run) {
        return false;
    }
    let places = run.places;
    if !places_known(t, places, run.processes) {
        return false;
    }
    let vars = run.vars;
    vars_fit(t, vars, run.variables)
}

// The first n places, as words.
fn words_known(t: &[u64], places: &[u64], n: usize) -> bool
    requires { Sound t.now × (n ≤ length places.now) }
    ensures { result ≡ all_below n (place_known t.now places.now) }
{
    let locations = inner::location_count(t);
    (0..n).all(|p| (places[p] as usize) < locations)
}

// The words of variable v are those of a value of its kind.
fn var_words_fit(t: &[u64], ws: &[u64], v: usize) -> bool
    requires { Sound t.now × (length ws.now ≡ 2 * variable_room) × (v < variable_room) }
    ensures { result ≡ var_words_fit t.now ws.now v }
{
    let kind = ws[2 * v];
    if kind != inner::kind_at(t, v) {
        return false;
    }
    slots::is_value(kind, ws[2 * v + 1])
}

// So are those of the first n.
fn vars_words_fit(t: &[u64], ws: &[u64], n: usize) -> bool
    requires { Sound t.now × (length ws.now ≡ 2 * variable_room) × (n ≤ variable_room) }
    ensures { result ≡ all_below n (var_words_fit t.now ws.now) }
{
    (0..n).all(|v| var_words_fit(t, ws, v))
}

// The parts of a run's words.
fn word_counts_same(t: &[u64], r: &[u64]) -> bool
    requires { Sound t.now × RunWords r.now }
    ensures { result ≡ counts_same t.now (run_at r.now) }
{
    if r[runs::PROCESSES] as usize != inner::process_count(t) {
        return false;
    }
    if r[runs::VARIABLES] as usize != inner::variable_count(t) {
        return false;
    }
    r[runs::TIMERS] as usize == inner::clock_count(t)
}

fn all_places_known(t: &[u64], r: &[u64]) -> bool
    requires { Sound t.now × RunWords r.now }
    ensures { result ≡ all_below (process_count t.now) (place_known t.now (places_in r.now)) }
{
    words_known(t, &r[runs::PLACES..runs::VARS], inner::process_count(t))
}

fn all_vars_fit(t: &[u64], r: &[u64]) -> bool
    requires { Sound t.now × RunWords r.now }
    ensures { result ≡ all_below (variable_count t.now) (var_words_fit t.now (vars_in r.now)) }
{
    vars_words_fit(t, &r[runs::VARS..runs::CLOCKS], inner::variable_count(t))
}

fn all_clocks_fit(t: &[u64], r: &[u64]) -> bool
    requires { Sound t.now × RunWords r.now }
    ensures { result ≡ all_below (clock_count t.now) (clock_fits (clocks_in r.now) 0) }
{
    waits::clocks_fit(&r[runs::CLOCKS..runs::WORDS], inner::clock_count(t), 0)
}

// The words are a run of the table. Those past its counts are not read.
pub fn run_words_fit(t: &[u64], r: &[u64]) -> bool
    requires { Sound t.now × RunWords r.now }
    ensures { result ≡ run_words_fit t.now r.now }
{
    if !word_counts_same(t, r) {
        return false;
    }
    if !all_places_known(t, r) {
        return false;
    }
    if !all_vars_fit(t, r) {
        return false;
    }
    all_clocks_fit(t, r)
}
