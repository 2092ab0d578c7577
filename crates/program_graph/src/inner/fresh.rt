// A fresh run of a graph. The loops below go by number, since calls read what they put from the table (`place_at(t, p)`).
ghost use Rattle.std.specs.Prelude.{◌≡◌, ◌<◌};
ghost use Rattle.graph_tables.specs.Words.{variable_count, process_count};
ghost use Rattle.graph_tables.specs.Sound.{Sound};
ghost use Rattle.program_graph.specs.Running.{start_places, start_value, start_vars, fresh_run, no_run};

use crate::record::ProgramGraphRun;
use grammar::bits;
use grammar::values::{Slot, Val};
use graph_tables::{inner, sizes};

fn start_places(t: &[u64], n: usize) -> [u32; sizes::PROCESSES]
    requires { Sound t.now × (n ≡ process_count t.now) }
    ensures { result ≡ start_places t.now n }
{
    let mut places = [0; sizes::PROCESSES];
    for p in 0..n {
        places[p] = inner::place_at(t, p) as u32;
    }
    places
}

fn start_value(t: &[u64], v: usize) -> Val
    requires { Sound t.now × (v < variable_count t.now) }
    ensures { result ≡ start_value t.now v }
{
    let value = inner::value_at(t, v);
    if inner::kind_at(t, v) == 0 {
        return Val::Boolean(value == 1);
    }
    Val::Integer(bits::from_bits(value as u32))
}

fn start_vars(t: &[u64], n: usize) -> [Slot; sizes::VARIABLES]
    requires { Sound t.now × (n ≡ variable_count t.now) }
    ensures { result ≡ start_vars t.now n }
{
    let blank = Slot {
        value: Val::Boolean(false),
    };
    let mut vars = [blank; sizes::VARIABLES];
    for v in 0..n {
        let value = start_value(t, v);
        vars[v] = Slot { value };
    }
    vars
}

pub fn fresh(t: &[u64]) -> ProgramGraphRun
    requires { Sound t.now }
    ensures { result ≡ fresh_run t.now }
{
    let processes = inner::process_count(t);
    let variables = inner::variable_count(t);
    let places = start_places(t, processes);
    let vars = start_vars(t, variables);
    ProgramGraphRun {
        places,
        vars,
        times: [0; sizes::CLOCKS],
        processes,
        variables,
        clocks: inner::clock_count(t),
    }
}

pub fn no_run() -> ProgramGraphRun
    ensures { result ≡ no_run }
{
    let blank = Slot {
        value: Val::Boolean(false),
    };
    ProgramGraphRun {
        places: [0; sizes::PROCESSES],
        vars: [blank; sizes::VARIABLES],
        times: [0; sizes::CLOCKS],
        processes: 0,
        variables: 0,
        clocks: 0,
    }
}
