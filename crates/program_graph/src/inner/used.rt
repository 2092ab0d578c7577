// A run in words, by value. What it does not have is not read.
ghost use Rattle.std.specs.Prelude.{◌≡◌, ◌*◌, ◌≤◌, length, replicate};
ghost use Rattle.grammar.specs.Evaluation.{blank};
ghost use Rattle.grammar.specs.Slots.{slots_of};
ghost use Rattle.graph_tables.specs.Sizes.{process_room, variable_room, clock_room};
ghost use Rattle.program_graph.specs.Inner.{over_below};
ghost use Rattle.program_graph.specs.Used.{numbers_below, used_run, SmallBelow, Readable};

use crate::inner::words;
use crate::record::ProgramGraphRun;
use grammar::values::{Slot, Val};
use graph_tables::{runs, sizes};

// The first n places.
fn used_places(from: &[u64], n: usize) -> [u32; sizes::PROCESSES]
    requires { (length from.now ≡ process_room) × (n ≤ process_room) × SmallBelow from.now n }
    ensures { result ≡ numbers_below process_room from.now n }
{
    let mut places = [0; sizes::PROCESSES];
    for p in 0..n {
        places[p] = from[p] as u32;
    }
    places
}

// The first n times.
fn used_times(from: &[u64], n: usize) -> [u32; sizes::CLOCKS]
    requires { (length from.now ≡ clock_room) × (n ≤ clock_room) × SmallBelow from.now n }
    ensures { result ≡ numbers_below clock_room from.now n }
{
    let mut times = [0; sizes::CLOCKS];
    for c in 0..n {
        times[c] = from[c] as u32;
    }
    times
}

// The first n variables.
fn used_vars(from: &[u64], n: usize) -> [Slot; sizes::VARIABLES]
    requires { (length from.now ≡ 2 * variable_room) × (n ≤ variable_room) }
    ensures { result ≡ over_below (replicate variable_room blank) (slots_of from.now) n }
{
    let empty = Slot {
        value: Val::Boolean(false),
    };
    let vars = [empty; sizes::VARIABLES];
    words::vars_over(vars, from, n)
}

// The whole run.
pub fn used_run(r: &[u64]) -> ProgramGraphRun
    requires { Readable r.now }
    ensures { result ≡ used_run r.now }
{
    let processes = r[runs::PROCESSES] as usize;
    let variables = r[runs::VARIABLES] as usize;
    let clocks = r[runs::TIMERS] as usize;
    let places = used_places(&r[runs::PLACES..runs::VARS], processes);
    let vars = used_vars(&r[runs::VARS..runs::CLOCKS], variables);
    let times = used_times(&r[runs::CLOCKS..runs::WORDS], clocks);
    ProgramGraphRun {
        places,
        vars,
        times,
        processes,
        variables,
        clocks,
    }
}
