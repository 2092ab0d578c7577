// A location more, with its invariants, and a process more.
ghost use Rattle.std.specs.Prelude.{◌≡◌, ◌≤◌, ◌<◌};
ghost use Rattle.graph_tables.specs.Sizes.{process_room, location_room, limit_room};
ghost use Rattle.graph_tables.specs.Words.{Words, location_count, process_count};
ghost use Rattle.graph_edits.specs.Edits.{with_location, with_process};

use crate::inner::limits;
use graph_tables::handed::Limits;
use graph_tables::inner;
use graph_tables::inner::writers;

pub fn put_location(t: &mut [u64], invariants: Limits)
    requires { Words t.old × (location_count t.old < location_room) × (invariants.count ≤ limit_room) }
    ensures { t.new ≡ with_location t.old invariants }
{
    let n = inner::location_count(t);
    limits::put_limits(t, inner::invariant_group(n), invariants);
    writers::set_invariant_count(t, n, invariants.count);
    writers::set_location_count(t, n + 1);
}

pub fn put_process(t: &mut [u64], l: usize)
    requires { Words t.old × (process_count t.old < process_room) }
    ensures { t.new ≡ with_process t.old l }
{
    let n = inner::process_count(t);
    writers::set_place(t, n, l);
    writers::set_process_count(t, n + 1);
}
